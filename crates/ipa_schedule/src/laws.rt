//! The laws of schedules. Each function computes nothing: its contract is the law.
ghost use Rattle.std.specs.Prelude.{◌≡◌, ℕ, ◌+◌, false};
ghost use Rattle.ipa_history.specs.declared.outcomes.SimEnd.{SimEnd};
ghost use Rattle.ipa_world.specs.Worlds.{WorldParts};
ghost use Rattle.ipa_world.specs.Lawful.{IsLawful, HasNoneLeft};
ghost use Rattle.ipa_schedule.specs.Going.{RunParts, begun};
ghost use Rattle.ipa_schedule.specs.Schedules.{IsRunTo, IsSettled, IsScheduled, IsFullSchedule};
ghost use Rattle.ipa_schedule.specs.Reached.{IsReached};
ghost use Rattle.ipa_schedule.specs.Plans.{IsPlanned};
ghost use Rattle.ipa_schedule.specs.Ends.{IsEndOf, IsEndOfSchedule, IsLawfulFor};
ghost use Rattle.ipa_schedule.specs.Runs.{RunState, HasBegun, IsEnded, IsOneMore, IsTurnedFull, IsSettledEnd, IsFullAtLast};

use crate::runs::Run;

/// Whatever turns a run has taken, its world is as lawful as it was at the start.
pub fn law_turns_stay_lawful()
    ensures { (number turns : ℕ) (start r : RunParts) → IsRunTo number start turns r → IsLawful start.world →
        IsLawful r.world }
{}

/// Whatever the turns before were: once no request is left, and where the settling finds room, the end is lawful for the
/// sessions' requests, its final facts are within all bounds, and all logs hold the same transactions.
pub fn law_settled_run_is_lawful()
    ensures { (r after : RunParts) (end : SimEnd) → IsLawful r.world → HasNoneLeft r.world → IsSettled r after →
        after.full ≡ false → IsEndOf after end → IsLawfulFor after.world end }
{}

/// The end of the schedule of a number is lawful, whatever the weathers gave.
pub fn law_scheduled_is_lawful()
    ensures { (number : ℕ) (start r : RunParts) (end : SimEnd) → IsLawful start.world → IsScheduled number start r →
        IsEndOf r end → IsLawfulFor r.world end }
{}

/// Each world that a schedule comes to, after some of its turns, at its end or where a log was without room, is reached by
/// a list of steps. So whatever holds after all steps of worlds holds there.
pub fn law_schedules_are_runs()
    ensures turns { (number turns : ℕ) (start r : RunParts) → IsRunTo number start turns r →
        IsReached start.world r.world }
    ensures settled { (r after : RunParts) → IsSettled r after → IsReached r.world after.world }
    ensures scheduled { (number : ℕ) (start r : RunParts) → IsScheduled number start r →
        IsReached start.world r.world }
    ensures full { (number : ℕ) (start r : RunParts) → IsFullSchedule number start r → IsReached start.world r.world }
{}

/// Of each run some number of turns was begun, by its type.
pub fn law_run_is_begun(run: &Run)
    ensures { IsPlanned run.now.run.world run.now.plan }
{
    let _full = run.progress.full;
}

/// A run that is taken a turn at a time is the schedule of its number, as long as no turn wants memory: each turn goes on
/// with it, a turn or a settling that meets a log without room ends the full schedule, and the end of a settled run is that
/// of the schedule, for the fates that were given.
pub fn law_runs_are_schedules()
    ensures turns { (k : ℕ) (start : RunParts) (s after : RunState) → IsRunTo s.plan.number start k s.run →
        HasBegun s k → IsOneMore k s after → IsRunTo s.plan.number start (k + 1) after.run }
    ensures full { (k : ℕ) (start : RunParts) (s after : RunState) → IsRunTo s.plan.number start k s.run →
        HasBegun s k → IsTurnedFull k s after → IsFullSchedule s.plan.number start after.run }
    ensures full_at_last { (k : ℕ) (start : RunParts) (s : RunState) → IsRunTo s.plan.number start k s.run →
        HasBegun s k → IsEnded s → (last : IsFullAtLast s.run) → IsFullSchedule s.plan.number start last.after }
    ensures ends { (k : ℕ) (w : WorldParts) (s : RunState) → IsRunTo s.plan.number (begun w) k s.run → HasBegun s k →
        IsEnded s → (end : SimEnd) (last : IsSettledEnd s.run end) →
        IsEndOfSchedule s.plan.number w last.after.world end }
{}

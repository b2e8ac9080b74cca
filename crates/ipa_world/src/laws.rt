//! The laws of worlds. Each function computes nothing: its contract is the law.
ghost use Rattle.ipa_world.specs.Lawful.{IsLawful};
ghost use Rattle.ipa_world.specs.Room.{HasRoom};
ghost use Rattle.ipa_world.specs.WorldLaws.{StartIsLawful, RunsStayLawful, CutsKeep, ReadsAreCalm, NoneIsWithheld, LogsAgree, SettledIsLawfulEnd, CalmIsWithin};

use crate::world::World;

/// Each world is lawful, by its type, and no log has more entries than a log can have.
pub fn law_world_is_lawful(world: &World)
    ensures lawful { IsLawful world.now }
    ensures room { HasRoom world.now }
{
    let _alloc = world.alloc;
}

/// The world of a setup is lawful; and whatever the steps are that lead from a lawful world to another one, in whatever
/// order, the other one is lawful too: its logs and what its sessions have seen are legal histories, each session has
/// seen nothing that its replica's log lacks, and each outcome is its request's answer at its cut. Only its logs must
/// not have more entries than a log can have.
pub fn law_runs_stay_lawful()
    ensures start { StartIsLawful }
    ensures runs { RunsStayLawful }
{}

/// In a lawful world every closed cut of every log keeps all clauses, also one that no session has ever read; and each
/// outcome was answered at a state that keeps them and is within the bounds.
pub fn law_reads_keep()
    ensures cuts { CutsKeep }
    ensures reads { ReadsAreCalm }
{}

/// Whatever the steps are that the world of a setup has taken, an entry that a sender takes its receiver to have, and
/// therefore does not send again, is in the receiver's log.
pub fn law_none_is_withheld()
    ensures { NoneIsWithheld }
{}

/// No two logs of a lawful world have two transactions under one dot.
pub fn law_logs_agree()
    ensures { LogsAgree }
{}

/// Where all logs of a lawful world hold the same transactions and no request is left, the first log, the outcomes and
/// the state of all entries are a lawful end. That state is within the bounds, where a session has seen all entries and
/// no drop is due where it stands.
pub fn law_settled_is_lawful_end()
    ensures lawful { SettledIsLawfulEnd }
    ensures within { CalmIsWithin }
{}

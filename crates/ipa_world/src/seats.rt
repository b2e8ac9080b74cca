//! The sessions of a world: what each was to do, what it has seen, and what it was answered.
ghost use Rattle.std.specs.Prelude.{◌≡◌, ℕ, ◌<◌, ◌≤◌, List as Items, ◌∷◌, [], ◌++◌, length, slice_get, Some, None, Err, OnOk, OnErr};
ghost use Rattle.std.specs.Option.{option_copied};
ghost use Rattle.ipa_clock.specs.declared.cut.Cut.{Cut as TheCut};
ghost use Rattle.ipa_logic.specs.Requests.{IsRequest};
ghost use Rattle.ipa_logic.specs.declared.facts.Request.{Request as TheRequest};
ghost use Rattle.ipa_history.specs.Answers.{IsAnswer};
ghost use Rattle.ipa_history.specs.Clocks.{IsClockOf};
ghost use Rattle.ipa_history.specs.declared.history.Tx.{Tx as TheTx};
ghost use Rattle.ipa_gate.specs.Agreements.{HasAll, IsReadTo};
ghost use Rattle.ipa_gate.specs.Logs.{most};
ghost use Rattle.ipa_session.specs.Sessions.{IsLawfulNext, IsCalmAt, IsDecision};
ghost use Rattle.ipa_world.specs.Worlds.{WorldParts, with_seat, next_request};
ghost use Rattle.ipa_world.specs.Steps.{IsPulled, IsAct};
ghost use Rattle.ipa_world.specs.Room.{IsActFull};
ghost use Rattle.ipa_world.specs.Seats.{seat_parts, IsPlaced, placed, IsOpenTo};
ghost use Rattle.ipa_world.specs.Places.{IsLonger};

use crate::giving::give;
use crate::steps::WorldFault;
use ipa_clock::Cut;
use ipa_gate::Log;
use ipa_history::{Answer, Outcome, Tx};
use ipa_logic::Request;
use ipa_session::{Decision, Session};
use ipa_spec::List;
use std::alloc::Global;
use std::mem;

// A session of a world.
#[derive(Drop)]
pub(crate) struct Seat {
    // The replica at which it acts.
    pub(crate) replica: u8,
    // What it was to ask.
    pub(crate) requests: List<Request>,
    // What it has seen.
    pub(crate) session: Session,
    // How many of the first entries of its replica's log it is known to have seen.
    pub(crate) read: u32,
    // What its first requests were answered.
    pub(crate) outcomes: List<Outcome>,
}

impl Seat {
    // The request that it asks next, or `None` where none is left.
    pub(crate) fn next_request(&self) -> Option<&Request>
        ensures { option_copied result ≡ next_request (seat_parts self.now) }
    {
        self.requests.get(self.outcomes.len())
    }

    // Sees what the log of its replica has beyond it. It looks at the entries alone that it has not read.
    pub(crate) fn pull(&mut self, log: &Log) -> Result<(), WorldFault>
        requires setting { log.now.setting ≡ self.old.session.setting }
        requires has { HasAll log.now.entries self.old.session.seen }
        requires read { IsReadTo log.now.entries self.old.session.seen self.old.read }
        ensures pulled { (w : WorldParts) → IsPlaced w self.old log.now →
            OnOk result (IsPulled w self.old.session.origin (with_seat w self.old.session.origin (seat_parts self.new))) }
        ensures read { IsReadTo log.now.entries self.new.session.seen self.new.read }
        ensures full { result ≡ Err WorldFault.Full → ⊥ }
        ensures unchanged { OnErr result (seat_parts self.new ≡ seat_parts self.old) }
        ensures setting { self.new.session.setting ≡ self.old.session.setting }
        ensures origin { self.new.session.origin ≡ self.old.session.origin }
        ensures replica { self.new.replica ≡ self.old.replica }
    {
        let _cut = self.session.cut();
        self.session.pull_from(log, self.read)?;
        let entries = log.entries();
        self.read = entries.len();
        Ok(())
    }

    // Acts: it makes the drop that is due; where none is, its next request is answered.
    pub(crate) fn act(&mut self, log: &mut Log, alloc: Global) -> Result<(), WorldFault>
        requires setting { log.old.setting ≡ self.old.session.setting }
        requires open { IsOpenTo self.old.session log.old.entries }
        requires fit { (place : ℕ) (request : TheRequest) → slice_get self.old.requests place ≡ Some request →
            IsRequest self.old.session.setting.spec self.old.session.setting.universe request }
        ensures acted { (w : WorldParts) → IsPlaced w self.old log.old →
            OnOk result (IsAct w self.old.session.origin (placed w self.old.session.origin self.new log.new)) }
        ensures full { (w : WorldParts) → IsPlaced w self.old log.old → result ≡ Err WorldFault.Full →
            IsActFull w self.old.session.origin }
        ensures room { (w : WorldParts) → IsPlaced w self.old log.old →
            OnOk result (IsActFull w self.old.session.origin → ⊥) }
        ensures seat_stays { OnErr result (seat_parts self.new ≡ seat_parts self.old) }
        ensures log_stays { OnErr result (log.new.entries ≡ log.old.entries) }
        ensures log_setting { log.new.setting ≡ log.old.setting }
        ensures setting { self.new.session.setting ≡ self.old.session.setting }
        ensures origin { self.new.session.origin ≡ self.old.session.origin }
        ensures replica { self.new.replica ≡ self.old.replica }
        ensures read { self.new.read ≡ self.old.read }
        ensures sees { IsLonger self.old.session.seen self.new.session.seen }
        ensures grows { IsLonger log.old.entries log.new.entries }
    {
        let _cut = self.session.cut();
        match self.session.next_drop() {
            Some(tx) => make(&mut self.session, log, tx),
            None => self.answer(log, alloc),
        }
    }

    // Where no drop is due, its next request is answered.
    fn answer(&mut self, log: &mut Log, alloc: Global) -> Result<(), WorldFault>
        requires setting { log.old.setting ≡ self.old.session.setting }
        requires open { IsOpenTo self.old.session log.old.entries }
        requires fit { (place : ℕ) (request : TheRequest) → slice_get self.old.requests place ≡ Some request →
            IsRequest self.old.session.setting.spec self.old.session.setting.universe request }
        requires calm { (cut : TheCut) → IsClockOf self.old.session.seen cut → IsCalmAt self.old.session cut }
        ensures acted { (w : WorldParts) → IsPlaced w self.old log.old →
            OnOk result (IsAct w self.old.session.origin (placed w self.old.session.origin self.new log.new)) }
        ensures full { (w : WorldParts) → IsPlaced w self.old log.old → result ≡ Err WorldFault.Full →
            IsActFull w self.old.session.origin }
        ensures room { (w : WorldParts) → IsPlaced w self.old log.old →
            OnOk result (IsActFull w self.old.session.origin → ⊥) }
        ensures seat_stays { OnErr result (seat_parts self.new ≡ seat_parts self.old) }
        ensures log_stays { OnErr result (log.new.entries ≡ log.old.entries) }
        ensures log_setting { log.new.setting ≡ log.old.setting }
        ensures setting { self.new.session.setting ≡ self.old.session.setting }
        ensures origin { self.new.session.origin ≡ self.old.session.origin }
        ensures replica { self.new.replica ≡ self.old.replica }
        ensures read { self.new.read ≡ self.old.read }
        ensures sees { IsLonger self.old.session.seen self.new.session.seen }
        ensures grows { IsLonger log.old.entries log.new.entries }
    {
        let cut = self.session.cut();
        let Some(request) = self.next_request().copied() else {
            return Ok(());
        };
        match self.session.decide(&request)? {
            Decision::Commit(tx) => self.commit(log, alloc, tx),
            Decision::Refused(reason) => tell(&mut self.outcomes, cut, Answer::Refused(reason)),
            Decision::Shown(state) => tell(&mut self.outcomes, cut, Answer::Shown(state)),
        }
    }

    // Commits its next transaction, whose commit is its next outcome.
    fn commit(&mut self, log: &mut Log, alloc: Global, tx: Tx) -> Result<(), WorldFault>
        requires setting { log.old.setting ≡ self.old.session.setting }
        requires open { IsOpenTo self.old.session log.old.entries }
        requires clock { IsClockOf self.old.session.seen tx.cut }
        requires lawful { IsLawfulNext self.old.session tx.cut tx }
        ensures seen { OnOk result (self.new.session.seen ≡ self.old.session.seen ++ tx ∷ []) }
        ensures outcomes { OnOk result (self.new.outcomes
            ≡ self.old.outcomes ++ record { cut = tx.cut; answer = Answer.Commit tx.dot.number } ∷ []) }
        ensures entries { OnOk result (log.new.entries ≡ log.old.entries ++ tx ∷ []) }
        ensures room { OnOk result (length log.old.entries < most) }
        ensures full { result ≡ Err WorldFault.Full → length log.old.entries ≡ most }
        ensures seen_stays { OnErr result (self.new.session.seen ≡ self.old.session.seen) }
        ensures outcomes_stay { OnErr result (self.new.outcomes ≡ self.old.outcomes) }
        ensures log_stays { OnErr result (log.new.entries ≡ log.old.entries) }
        ensures log_setting { log.new.setting ≡ log.old.setting }
        ensures setting { self.new.session.setting ≡ self.old.session.setting }
        ensures origin { self.new.session.origin ≡ self.old.session.origin }
        ensures replica { self.new.replica ≡ self.old.replica }
        ensures requests { self.new.requests ≡ self.old.requests }
        ensures read { self.new.read ≡ self.old.read }
    {
        let mut outcomes = mem::replace(&mut self.outcomes, List::new(alloc)).into_vec();
        let made = commit_with(&mut outcomes, &mut self.session, log, tx);
        self.outcomes = List::from_vec(outcomes);
        made
    }
}

// The session makes its next transaction, which its replica's log takes.
fn make(session: &mut Session, log: &mut Log, tx: Tx) -> Result<(), WorldFault>
    requires setting { log.old.setting ≡ session.old.setting }
    requires open { IsOpenTo session.old log.old.entries }
    requires clock { IsClockOf session.old.seen tx.cut }
    requires lawful { IsLawfulNext session.old tx.cut tx }
    ensures seen { OnOk result (session.new.seen ≡ session.old.seen ++ tx ∷ []) }
    ensures entries { OnOk result (log.new.entries ≡ log.old.entries ++ tx ∷ []) }
    ensures room { OnOk result (length log.old.entries < most) }
    ensures full { result ≡ Err WorldFault.Full → length log.old.entries ≡ most }
    ensures seen_stays { OnErr result (session.new.seen ≡ session.old.seen) }
    ensures log_stays { OnErr result (log.new.entries ≡ log.old.entries) }
    ensures log_setting { log.new.setting ≡ log.old.setting }
    ensures setting { session.new.setting ≡ session.old.setting }
    ensures origin { session.new.origin ≡ session.old.origin }
{
    session.reserve()?;
    give(log, tx)?;
    session.keep(tx)?;
    Ok(())
}

// The same with the commit as its next outcome, for which there is room first.
fn commit_with(
    outcomes: &mut Vec<Outcome>,
    session: &mut Session,
    log: &mut Log,
    tx: Tx,
) -> Result<(), WorldFault>
    requires setting { log.old.setting ≡ session.old.setting }
    requires open { IsOpenTo session.old log.old.entries }
    requires clock { IsClockOf session.old.seen tx.cut }
    requires lawful { IsLawfulNext session.old tx.cut tx }
    ensures seen { OnOk result (session.new.seen ≡ session.old.seen ++ tx ∷ []) }
    ensures outcomes { OnOk result (outcomes.new.items
        ≡ outcomes.old.items ++ record { cut = tx.cut; answer = Answer.Commit tx.dot.number } ∷ []) }
    ensures entries { OnOk result (log.new.entries ≡ log.old.entries ++ tx ∷ []) }
    ensures room { OnOk result (length log.old.entries < most) }
    ensures full { result ≡ Err WorldFault.Full → length log.old.entries ≡ most }
    ensures seen_stays { OnErr result (session.new.seen ≡ session.old.seen) }
    ensures outcomes_stay { OnErr result (outcomes.new.items ≡ outcomes.old.items) }
    ensures log_stays { OnErr result (log.new.entries ≡ log.old.entries) }
    ensures log_setting { log.new.setting ≡ log.old.setting }
    ensures setting { session.new.setting ≡ session.old.setting }
    ensures origin { session.new.origin ≡ session.old.origin }
{
    outcomes.reserve(1)?;
    make(session, log, tx)?;
    outcomes.push_reserved(Outcome {
        cut: tx.cut,
        answer: Answer::Commit(tx.dot.number),
    });
    Ok(())
}

// The outcome is the session's next one.
fn tell(outcomes: &mut List<Outcome>, cut: Cut, answer: Answer) -> Result<(), WorldFault>
    ensures told { OnOk result (outcomes.new ≡ outcomes.old ++ record { cut = cut; answer = answer } ∷ []) }
    ensures full { result ≡ Err WorldFault.Full → ⊥ }
    ensures stays { OnErr result (outcomes.new ≡ outcomes.old) }
{
    outcomes.push(Outcome { cut, answer })?;
    Ok(())
}

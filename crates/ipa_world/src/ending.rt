//! What a world has come to.
ghost use Rattle.std.specs.Prelude.{◌≡◌, ◌<◌, length, map, slice_get, Some, IfOk};
ghost use Rattle.ipa_logic.specs.Facts.{IsStateOf};
ghost use Rattle.ipa_history.specs.Values.{value_of};
ghost use Rattle.ipa_history.specs.Histories.{IsHistory};

use crate::seats::Seat;
use crate::world::World;
use ipa_gate::Setting;
use ipa_history::{Answer, History, Outcome, Tx};
use ipa_logic::State;
use ipa_sets::Facts;
use ipa_spec::List;
use std::alloc::{AllocError, Global};

impl World {
    /// Copies of the entries of the first replica, of what each session was answered, and of the facts that are true
    /// where all these entries are known.
    pub fn end(&self) -> Result<(History, List<List<Outcome>>, State), AllocError>
        requires { 0 < length self.now.logs }
        ensures entries { IfOk result (λ end. slice_get self.now.logs 0 ≡ Some end.0) }
        ensures outcomes { IfOk result (λ end. end.1 ≡ map (λ seat. seat.outcomes) self.now.seats) }
        ensures last { IfOk result (λ end.
            IsStateOf (value_of self.now.setting.spec self.now.setting.base end.0) end.2) }
    {
        let entries = self.log(0).entries();
        let outcomes = outcomes_of_all(self.alloc, self.seats.as_slice())?;
        let last = last_facts(self.alloc, &self.setting, entries.as_slice())?;
        let copies = copied_entries(entries)?;
        Ok((copies, outcomes, last))
    }
}

// The facts that are true where all of the entries are known.
fn last_facts(alloc: Global, setting: &Setting, entries: &[Tx]) -> Result<State, AllocError>
    requires { IsHistory entries.now }
    ensures { IfOk result (λ last. IsStateOf (value_of setting.now.spec setting.now.base entries.now) last) }
{
    let spec = setting.accepted().spec();
    let mut facts = Facts::new(alloc, spec, setting.base().copy()?);
    for tx in entries {
        facts.take(spec, tx)?;
    }
    facts.state()
}

// Copies of the entries.
fn copied_entries(entries: &History) -> Result<History, AllocError>
    ensures { IfOk result (λ copies. copies ≡ entries.now) }
{
    entries.clone()
}

// Copies of what each of the sessions was answered.
fn outcomes_of_all(alloc: Global, seats: &[Seat]) -> Result<List<List<Outcome>>, AllocError>
    ensures { IfOk result (λ all. all ≡ map (λ seat. seat.outcomes) seats.now) }
{
    let mut all = List::new(alloc);
    for seat in seats {
        all.push(copied(alloc, seat.outcomes.as_slice())?)?;
    }
    Ok(all)
}

// Copies of the outcomes.
fn copied(alloc: Global, outcomes: &[Outcome]) -> Result<List<Outcome>, AllocError>
    ensures { IfOk result (λ copies. copies ≡ outcomes.now) }
{
    let mut copies = List::new(alloc);
    for outcome in outcomes {
        copies.push(Outcome {
            cut: outcome.cut,
            answer: copied_answer(&outcome.answer)?,
        })?;
    }
    Ok(copies)
}

// A copy of the answer.
fn copied_answer(answer: &Answer) -> Result<Answer, AllocError>
    ensures { IfOk result (λ copy. copy ≡ answer.now) }
{
    match answer {
        Answer::Commit(number) => Ok(Answer::Commit(*number)),
        Answer::Refused(reason) => Ok(Answer::Refused(*reason)),
        Answer::Shown(state) => Ok(Answer::Shown(state.copy()?)),
    }
}

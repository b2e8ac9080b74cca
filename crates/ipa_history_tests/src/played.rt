//! Games of players and cups, played transaction by transaction.
use crate::cups::{DROP, ENROLL, UNIVERSE, holding, spec_of};
use ipa_clock::{Cut, Dot};
use ipa_history::{
    Answer, History, LegalFault, Reason, Tx, answer_plain, legal_plain, state_at_plain,
};
use ipa_logic::{Broken, Fact, Request, State, keeps};
use ipa_spec::{Action, Pick, Spec};
use std::alloc::Global;
use std::test::Fail;

/// What the origins 0 to 5 have done.
pub type Seen = [u32; 6];

/// A transaction, as a story tells of it: its origin, what that had seen, and what it does, to a player and, if it is
/// about a cup too, a cup.
pub type Move = (u8, Seen, Action, [u16; 2]);

/// The cut of what was seen.
fn cut_of(seen: Seen) -> Cut {
    let mut cut = Cut::empty();
    for origin in 0..6 {
        cut.counts[origin] = seen[origin];
    }
    cut
}

/// The transaction of a move: the next one of its origin.
fn tx_of(made: Move) -> Tx {
    let (origin, seen, action, names) = made;
    let cut = cut_of(seen);
    let own = cut.counts.get(origin as usize).copied().unwrap_or(0);
    Tx {
        dot: Dot {
            origin,
            number: own.saturating_add(1),
        },
        cut,
        action,
        args: [names[0], names[1], 0, 0],
        count: if action == ENROLL || action == DROP {
            2
        } else {
            1
        },
    }
}

/// A game: its rules, the facts at its start, and what has been done.
#[derive(Drop)]
pub struct Game {
    spec: Spec,
    base: State,
    history: History,
}

impl Game {
    /// The game that begins with these facts, with the bound's pick.
    pub fn new(alloc: Global, pick: Pick, facts: &[Fact]) -> Result<Game, Fail> {
        Ok(Game {
            spec: spec_of(alloc, pick)?,
            base: holding(alloc, facts)?,
            history: History::new(alloc),
        })
    }

    /// The first reason against the move, which may follow.
    pub fn reason(&self, alloc: Global, made: Move) -> Result<Option<Reason>, Fail> {
        let tx = tx_of(made);
        if !self.history.can_follow(&tx) {
            return Err("this does not follow".into());
        }
        match legal_plain(alloc, &self.spec, &UNIVERSE, &self.base, &self.history, &tx) {
            Ok(()) => Ok(None),
            Err(LegalFault::Illegal(reason)) => Ok(Some(reason)),
            Err(LegalFault::NoMemory) => Err("memory is wanting".into()),
        }
    }

    /// Appends the move, which follows, legal or not.
    pub fn append(&mut self, made: Move) -> Result<(), Fail> {
        append(&mut self.history, &tx_of(made))
    }

    /// The state at the cut.
    fn state(&self, alloc: Global, seen: Seen) -> Result<State, Fail> {
        let cut = cut_of(seen);
        let state = state_at_plain(alloc, &self.spec, &self.base, &self.history, &cut)?;
        Ok(state)
    }

    /// Whether just these facts are true at the cut.
    pub fn is_state(&self, alloc: Global, seen: Seen, facts: &[Fact]) -> Result<bool, Fail> {
        let state = self.state(alloc, seen)?;
        are_facts(alloc, &state, facts)
    }

    /// The first broken instance at the cut.
    pub fn broken(&self, alloc: Global, seen: Seen) -> Result<Option<Broken>, Fail> {
        let state = self.state(alloc, seen)?;
        Ok(keeps(&self.spec, &UNIVERSE, &state))
    }

    /// What the request of the origin is answered at the closed cut.
    pub fn answer(
        &self,
        alloc: Global,
        seen: Seen,
        origin: u8,
        request: &Request,
    ) -> Result<Answer, Fail> {
        let cut = cut_of(seen);
        if origin >= 16 || !self.history.is_closed(&cut) {
            return Err("this cut is not closed".into());
        }
        let answer = answer_plain(
            alloc,
            &self.spec,
            &UNIVERSE,
            &self.base,
            &self.history,
            &cut,
            origin,
            request,
        )?;
        Ok(answer)
    }
}

/// Whether just these facts are true in the state.
pub fn are_facts(alloc: Global, state: &State, facts: &[Fact]) -> Result<bool, Fail> {
    Ok(state.to_vec(alloc)?.as_slice() == facts)
}

/// Appends the transaction, which follows.
fn append(history: &mut History, tx: &Tx) -> Result<(), Fail> {
    let _formed = history.as_slice();
    if !history.can_follow(tx) {
        return Err("this does not follow".into());
    }
    history.push(*tx)?;
    Ok(())
}

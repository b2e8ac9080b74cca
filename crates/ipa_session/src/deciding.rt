//! What a session does at its own cut: the drop that is due there, and its decisions on requests.
ghost use Rattle.std.specs.Prelude.{◌≡◌, ℕ, ◌+◌, ◌<◌, IfOk, MatchOption};
ghost use Rattle.ipa_clock.specs.declared.cut.Cut.{Cut as TheCut};
ghost use Rattle.ipa_spec.specs.Actions.{sorts_of};
ghost use Rattle.ipa_logic.specs.Requests.{IsRequest, IsDo};
ghost use Rattle.ipa_history.specs.Answers.{next_operation};
ghost use Rattle.ipa_history.specs.Clocks.{IsClockOf};
ghost use Rattle.ipa_session.specs.Sessions.{IsNextWith, IsCalmAt, IsDueNext, IsDecision};

use crate::decision::Decision;
use crate::session::Session;
use ipa_bounds::first_drop;
use ipa_clock::Dot;
use ipa_gate::{argument_count, reason_within};
use ipa_history::{Tx, facts_shown};
use ipa_logic::{Request, drop_args};
use ipa_spec::Action;
use ipa_spec::laws::spec_is_fit;
use std::alloc::AllocError;

impl Session {
    /// The drop that is due at its cut, as its next transaction, or `None` where the state is within the bounds, and
    /// keeps all clauses besides. It takes no memory, and goes through all groups only where the transactions that were
    /// seen last do not tell by themselves that none is over its bound.
    pub fn next_drop(&self) -> Option<Tx>
        ensures { (cut : TheCut) → IsClockOf self.now.seen cut →
            MatchOption result (IsCalmAt self.now cut) (IsDueNext self.now cut) }
    {
        if self.is_soon_calm() {
            return None;
        }
        let spec = self.setting.accepted().spec();
        spec_is_fit(spec);
        match first_drop(spec, &self.facts) {
            None => None,
            Some(drop) => Some(self.next(Action::Drop(drop.bound), drop_args(&drop.fact))),
        }
    }

    /// What it decides on the request, where no drop is due: exactly what the request is answered at its cut. An
    /// operation that is to be committed is decided as the session's whole next transaction.
    pub fn decide(&self, request: &Request) -> Result<Decision, AllocError>
        requires request { IsRequest self.now.setting.spec self.now.setting.universe request.now }
        requires calm { (cut : TheCut) → IsClockOf self.now.seen cut → IsCalmAt self.now cut }
        ensures { (cut : TheCut) → IsClockOf self.now.seen cut →
            IfOk result (IsDecision self.now cut request.now) }
    {
        match request {
            Request::Do { op, args } => Ok(self.decide_do(*op, args)),
            Request::Show { predicate, places } => {
                spec_is_fit(self.setting.accepted().spec());
                let shown = facts_shown(self.alloc, &self.facts, *predicate, places)?;
                Ok(Decision::Shown(shown))
            }
        }
    }

    // What it decides on an operation.
    fn decide_do(&self, op: u8, args: &[u16; 4]) -> Decision
        requires request { IsDo self.now.setting.spec self.now.setting.universe op args.now }
        requires calm { (cut : TheCut) → IsClockOf self.now.seen cut → IsCalmAt self.now cut }
        ensures { (cut : TheCut) → IsClockOf self.now.seen cut →
            IsDecision self.now cut (Request.Do op args.now) result }
    {
        let spec = self.setting.accepted().spec();
        spec_is_fit(spec);
        let tx = self.next(Action::Op(op), *args);
        match reason_within(
            spec,
            self.setting.universe(),
            self.setting.base(),
            &self.seen,
            &self.facts,
            &tx,
        ) {
            None => Decision::Commit(tx),
            Some(reason) => Decision::Refused(reason),
        }
    }

    // Its next transaction, with this action.
    fn next(&self, action: Action, args: [u16; 4]) -> Tx
        ensures { (cut : TheCut) → IsClockOf self.now.seen cut → IsNextWith self.now cut action args result }
    {
        let count = argument_count(self.setting.accepted().spec(), action);
        let _few = self.seen.len();
        Tx {
            dot: Dot {
                origin: self.origin,
                number: self.cut.counts[self.origin as usize] + 1,
            },
            cut: self.cut,
            action,
            args,
            count,
        }
    }
}

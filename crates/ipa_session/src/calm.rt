//! How a session knows that its state is within the bounds, however many facts are true.
//!
//! It keeps a calm cut: a closed cut at which the state is within the bounds. A bound that holds there can be exceeded
//! later only in the group of a fact that was added since. So a look at the transactions that the calm cut lacks is
//! enough, as long as they are few. Where many were seen since, all groups are counted once, and the calm cut rises.
ghost use Rattle.std.specs.Prelude.{◌≡◌, ◌≤◌, ◌↔◌, IsTrue, All, length, drop};
ghost use Rattle.ipa_clock.specs.declared.cut.Cut.{Cut as TheCut};
ghost use Rattle.ipa_history.specs.Clocks.{IsClockOf};
ghost use Rattle.ipa_sets.specs.FactSets.{true_facts};
ghost use Rattle.ipa_session.specs.Sessions.{IsCalmAt};
ghost use Rattle.ipa_session.specs.Calms.{IsCalmOf, IsSpared, first_calm, next_calm};

use crate::session::Session;
use ipa_bounds::within;
use ipa_clock::Cut;
use ipa_history::{History, Tx};
use ipa_overfill::spares;
use ipa_sets::Facts;
use ipa_spec::laws::spec_is_fit;
use ipa_spec::{Action, Spec};

// More transactions than these are not looked at one by one.
const FEW: usize = 64;

/// A closed cut at which the state is within the bounds.
#[derive(Clone, Copy)]
pub(crate) struct Calm {
    /// The cut.
    pub cut: Cut,
    /// So many of the transactions that were seen first are all in it.
    pub count: u32,
}

impl Calm {
    /// That of a session that has seen nothing.
    pub(crate) fn first() -> Calm
        ensures { result ≡ first_calm }
    {
        Calm {
            cut: Cut::empty(),
            count: 0,
        }
    }

    /// That of a session after its next transaction, with this action: the whole cut after an operation, which is legal
    /// only where it leaves the state within the bounds, and the same as before after a drop.
    pub(crate) fn next(self, action: Action, whole: Calm) -> Calm
        ensures { result ≡ next_calm action self whole }
    {
        match action {
            Action::Op(_) => whole,
            Action::Drop(_) => self,
        }
    }
}

impl Session {
    // Whether few transactions were seen after the calm cut, and each of them spares the bounds. Then no drop is due.
    pub(crate) fn is_soon_calm(&self) -> bool
        ensures { (cut : TheCut) → IsClockOf self.now.seen cut → IsTrue result → IsCalmAt self.now cut }
    {
        let spec = self.setting.accepted().spec();
        spec_is_fit(spec);
        let later = later(&self.seen, self.calm.count);
        later.len() <= FEW && all_spare(spec, &self.facts, &self.calm.cut, later)
    }

    // The calm cut, raised to its cut where that is found to be calm.
    pub(crate) fn risen_calm(&self) -> Calm
        ensures { IsCalmOf self.now.setting.spec self.now.setting.base self.now.seen result }
    {
        if self.is_found_calm() {
            Calm {
                cut: self.cut,
                count: self.seen.len(),
            }
        } else {
            self.calm
        }
    }

    // Whether it is found to be calm: by the few transactions that were seen after the calm cut, or by the whole state
    // where they are many.
    fn is_found_calm(&self) -> bool
        ensures { (cut : TheCut) → IsClockOf self.now.seen cut → IsTrue result → IsCalmAt self.now cut }
    {
        if self.is_soon_calm() {
            return true;
        }
        later(&self.seen, self.calm.count).len() > FEW && self.is_calm()
    }

    // Whether it is calm, by the whole state.
    fn is_calm(&self) -> bool
        ensures { (cut : TheCut) → IsClockOf self.now.seen cut → IsTrue result ↔ IsCalmAt self.now cut }
    {
        let spec = self.setting.accepted().spec();
        spec_is_fit(spec);
        within(spec, &self.facts)
    }
}

// The transactions that were seen after the first `count`.
fn later(seen: &History, count: u32) -> &[Tx]
    requires { count ≤ length seen.now }
    ensures { result.now ≡ drop count seen.now }
{
    &seen.as_slice()[count as usize..]
}

// Whether each transaction that the cut lacks spares the bounds.
fn all_spare(spec: &Spec, facts: &Facts, cut: &Cut, later: &[Tx]) -> bool
    ensures { IsTrue result ↔ All (IsSpared spec.now (true_facts facts.now) cut.now) later.now }
{
    later.iter().all(|tx| is_spared(spec, facts, cut, tx))
}

// Whether the transaction spares the bounds, or is in the cut.
fn is_spared(spec: &Spec, facts: &Facts, cut: &Cut, tx: &Tx) -> bool
    ensures { IsTrue result ↔ IsSpared spec.now (true_facts facts.now) cut.now tx.now }
{
    cut.covers(tx.dot) || spares(spec, facts, tx.action, &tx.args)
}

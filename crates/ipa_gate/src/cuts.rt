//! Whether a cut is a closed cut of what a log has, and where it is not.
//!
//! The cuts of one origin grow. So a cut is closed where the cut of the last member of each origin is below it, and
//! only where that fails the entries are gone through for the first member that shows it.
ghost use Rattle.std.specs.Prelude.{◌↔◌, ℕ, ◌<◌, ◌≤◌, IsTrue, MatchOption};
ghost use Rattle.ipa_clock.specs.Cut.{count_of, IsBelow};
ghost use Rattle.ipa_history.specs.Histories.{IsHistory, number_of};
ghost use Rattle.ipa_history.specs.Closings.{AllBelow, IsBelowIfCovered};
ghost use Rattle.ipa_gate.specs.Cuts.{IsFirstGap, HasFirstOpen, LastBelow, LastsBelow};
ghost use Rattle.ipa_sets.specs.Indexes.{IsIndexOf};

use crate::entries::entry_named;
use crate::setting::Setting;
use ipa_clock::{Cut, Dot};
use ipa_history::{History, Tx};
use ipa_sets::Index;

// The first origin of which the cut has more than the clock, or `None` where there is none.
pub(crate) fn first_gap(clock: &Cut, cut: &Cut) -> Option<u8>
    ensures { MatchOption result (IsBelow cut.now clock.now) (IsFirstGap cut.now clock.now) }
{
    for origin in 0..16u8 {
        if cut.counts[origin as usize] > clock.counts[origin as usize] {
            return Some(origin);
        }
    }
    None
}

// The first member of the cut whose own cut is not below it, or `None` where there is none. The entries have all of
// the cut.
pub(crate) fn open_member<'a>(setting: &Setting, index: &'a Index, cut: &Cut) -> Option<&'a Tx>
    requires indexed { IsIndexOf setting.now.spec index.now }
    requires within { (origin : ℕ) → count_of cut.now origin ≤ number_of origin index.now.entries }
    ensures { MatchOption result (AllBelow index.now.entries cut.now)
        (λ tx. HasFirstOpen index.now.entries cut.now tx.now) }
{
    if lasts_are_below(setting, index, cut) {
        return None;
    }
    first_open(index.history(), cut)
}

// Whether the cut of the last member of each origin is below the cut.
fn lasts_are_below(setting: &Setting, index: &Index, cut: &Cut) -> bool
    requires { IsIndexOf setting.now.spec index.now }
    ensures { IsTrue result ↔ LastsBelow index.now.entries cut.now }
{
    for origin in 0..16u8 {
        if !is_last_below(setting, index, cut, origin) {
            return false;
        }
    }
    true
}

// Whether the cut of the last member of this origin, if there is one, is below the cut.
fn is_last_below(setting: &Setting, index: &Index, cut: &Cut, origin: u8) -> bool
    requires indexed { IsIndexOf setting.now.spec index.now }
    requires origin { origin < 16 }
    ensures { IsTrue result ↔ LastBelow index.now.entries cut.now origin }
{
    let dot = Dot {
        origin,
        number: cut.counts[origin as usize],
    };
    match entry_named(setting, index, dot) {
        Some(last) => last.cut.is_below(cut),
        None => true,
    }
}

// The same, by going through the entries.
fn first_open<'a>(history: &'a History, cut: &Cut) -> Option<&'a Tx>
    ensures { MatchOption result (AllBelow history.now cut.now) (λ tx. HasFirstOpen history.now cut.now tx.now) }
{
    for tx in history.as_slice() {
        if !is_below_if_covered(tx, cut) {
            return Some(tx);
        }
    }
    None
}

// Whether the transaction's cut is below the cut, if the cut covers it.
fn is_below_if_covered(tx: &Tx, cut: &Cut) -> bool
    ensures { IsTrue result ↔ IsBelowIfCovered cut.now tx.now }
{
    !cut.covers(tx.dot) || tx.cut.is_below(cut)
}

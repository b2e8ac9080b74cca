//! What the index of a log tells of its entries.
ghost use Rattle.std.specs.Prelude.{◌≡◌, ◌↔◌, ℕ, ◌<◌, IsTrue, MatchOption};
ghost use Rattle.ipa_clock.specs.Cut.{count_of};
ghost use Rattle.ipa_history.specs.Histories.{IsNamedIn, NoneNamedIn, number_of};
ghost use Rattle.ipa_sets.specs.Indexes.{IsIndexOf};

use crate::setting::Setting;
use ipa_clock::{Cut, Dot};
use ipa_history::Tx;
use ipa_sets::Index;

// The entry with this dot, or `None` where there is none.
pub(crate) fn entry_named<'a>(setting: &Setting, index: &'a Index, dot: Dot) -> Option<&'a Tx>
    requires { IsIndexOf setting.now.spec index.now }
    ensures { MatchOption result (NoneNamedIn index.now.entries dot)
        (λ tx. IsNamedIn index.now.entries dot tx.now) }
{
    index.find(dot)
}

// The cut with all entries.
pub(crate) fn clock_of(setting: &Setting, index: &Index) -> Cut
    requires { IsIndexOf setting.now.spec index.now }
    ensures { (origin : ℕ) → origin < 16 → count_of result origin ≡ number_of origin index.now.entries }
{
    index.clock()
}

// Whether the two are one transaction.
pub(crate) fn is_same(one: &Tx, other: &Tx) -> bool
    ensures { IsTrue result ↔ (one.now ≡ other.now) }
{
    *one == *other
}

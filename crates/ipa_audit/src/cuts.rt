//! Whether a cut is closed, by the last transactions of its origins.
//!
//! The cuts of one origin grow. So a cut is closed where the entries have all of it, and the cut of the last member of
//! each origin is below it.
ghost use Rattle.std.specs.Prelude.{◌↔◌, ◌<◌, IsTrue};
ghost use Rattle.ipa_history.specs.Histories.{IsClosed};
ghost use Rattle.ipa_gate.specs.Cuts.{LastBelow, LastsBelow};
ghost use Rattle.ipa_sets.specs.Indexes.{IsIndexOf};
ghost use Rattle.ipa_spec.specs.declared.specification.Specification.{Specification};

use ipa_clock::{Cut, Dot};
use ipa_sets::Index;
use ipa_spec::Spec;

// Whether it is a closed cut of the entries.
pub(crate) fn is_closed(spec: &Spec, index: &Index, cut: &Cut) -> bool
    requires { IsIndexOf spec.now index.now }
    ensures { IsTrue result ↔ IsClosed index.now.entries cut.now }
{
    let _counts = cut.counts;
    cut.is_below(&index.clock()) && are_lasts_below(spec, index, cut)
}

// Whether the cut of the last member of each origin is below the cut.
fn are_lasts_below(spec: &Spec, index: &Index, cut: &Cut) -> bool
    requires { IsIndexOf spec.now index.now }
    ensures { IsTrue result ↔ LastsBelow index.now.entries cut.now }
{
    for origin in 0..16u8 {
        if !is_last_below(spec, index, cut, origin) {
            return false;
        }
    }
    true
}

// Whether the cut of the last member of this origin, if there is one, is below the cut.
fn is_last_below(_spec: &Spec, index: &Index, cut: &Cut, origin: u8) -> bool
    requires indexed { IsIndexOf _spec.now index.now }
    requires origin { origin < 16 }
    ensures { IsTrue result ↔ LastBelow index.now.entries cut.now origin }
{
    let number = cut.counts[origin as usize];
    match index.find(Dot { origin, number }) {
        Some(last) => last.cut.is_below(cut),
        None => true,
    }
}

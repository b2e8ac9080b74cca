//! Whether facts pass a test, told anew for those that a transaction concerns.
ghost use Rattle.std.specs.Prelude.{◌≡◌, ◌<◌, ℕ, true, false, length, slice_get, slice_index_or};
ghost use Rattle.std.specs.Option.{option_map_or};
ghost use Rattle.ipa_spec.specs.Actions.{effects_of};
ghost use Rattle.ipa_logic.specs.Facts.{IsRising};
ghost use Rattle.ipa_logic.specs.declared.facts.Fact.{Fact as TheFact};
ghost use Rattle.ipa_sets.specs.Fitting.{fits, is_within, concerns, IsTold, TellsAnew};
ghost use Rattle.ipa_sets.specs.Keys.{key_of};

use crate::fitting::{fits, is_within, place_before};
use crate::keys::key_of;
use crate::listing::Test;
use crate::patterns::Pattern;
use ipa_history::Tx;
use ipa_logic::{Fact, effect_at};
use ipa_spec::Spec;
use ipa_spec::laws::spec_is_fit;

// Tells anew of each fact that the transaction concerns whether it passes.
pub(crate) fn tell_concerned<T: Test>(
    test: &T,
    facts: &[Fact],
    truths: &mut [bool],
    spec: &Spec,
    tx: &Tx,
)
    requires rising { IsRising facts.now }
    requires even { length truths.old ≡ length facts.now }
    ensures { TellsAnew (T.passes test.now) facts.now (concerns spec.now tx.now) truths.old truths.new }
{
    spec_is_fit(spec);
    for place in 0..12usize {
        tell_effect(test, facts, truths, spec, tx, place);
    }
}

// The same of each fact that the transaction's effect at a place concerns, if it has one there.
fn tell_effect<T: Test>(
    test: &T,
    facts: &[Fact],
    truths: &mut [bool],
    spec: &Spec,
    tx: &Tx,
    place: usize,
)
    requires rising { IsRising facts.now }
    requires even { length truths.old ≡ length facts.now }
    ensures { TellsAnew (T.passes test.now) facts.now (λ f. option_map_or
        (λ e. fits (key_of spec.now tx.now.args e).pattern f) (slice_get (effects_of spec.now tx.now.action) place) false)
        truths.old truths.new }
{
    if let Some(effect) = effect_at(spec, tx.action, place) {
        let key = key_of(spec, &tx.args, &effect);
        tell_fitting(test, facts, truths, &key.pattern);
    }
}

// The same of each fact that fits the pattern.
fn tell_fitting<T: Test>(test: &T, facts: &[Fact], truths: &mut [bool], pattern: &Pattern)
    requires rising { IsRising facts.now }
    requires even { length truths.old ≡ length facts.now }
    ensures { TellsAnew (T.passes test.now) facts.now (fits pattern.now) truths.old truths.new }
{
    for place in place_before(facts, pattern)..facts.len() {
        if !is_within(true, pattern, &facts[place]) {
            return;
        }
        tell_at(test, facts, truths, pattern, place);
    }
}

// The same of the fact at a place, if it fits the pattern.
fn tell_at<T: Test>(test: &T, facts: &[Fact], truths: &mut [bool], pattern: &Pattern, place: usize)
    requires there { place < length facts.now }
    requires even { length truths.old ≡ length facts.now }
    ensures long { length truths.new ≡ length truths.old }
    ensures kept { (i : ℕ) → IsTold (T.passes test.now) facts.now truths.old i →
        IsTold (T.passes test.now) facts.now truths.new i }
    ensures told { (d : TheFact) → fits pattern.now (slice_index_or facts.now place d) ≡ true →
        IsTold (T.passes test.now) facts.now truths.new place }
{
    let fact = facts[place];
    if fits(pattern, &fact) {
        truths[place] = test.passes(&fact);
    }
}

//! The first live triple that has too many patterns.
ghost use Rattle.std.specs.Prelude.{◌≡◌, slice_get, Some, MatchOption};
ghost use Rattle.ipa_spec.specs.Actions.{IsAction};
ghost use Rattle.ipa_pairs.specs.Told.{AreBreakable};
ghost use Rattle.ipa_pairs.specs.Width.{IsTooWide, IsDeclared, IsOfPair, IsNarrow};
ghost use Rattle.ipa_pairs.specs.Triples.{IsOfLeft, IsFirstWide, IsWideAt};
ghost use Rattle.ipa_pairs.specs.declared.analysis.PairFault.TheVariants.{TooWide};

use crate::actions::{action_at, action_count, clause_count};
use crate::analysis::PairFault;
use crate::breaking::breakable_clauses;
use crate::constants::constant_counts;
use crate::sorts::triple_sorts;
use ipa_ground::Patterns;
use ipa_logic::is_live;
use ipa_reduction::laws::patterns_of_triples_fit;
use ipa_spec::laws::spec_is_fit;
use ipa_spec::{Action, Clause, Spec};

/// A live triple with more than 30000 patterns, and their number.
#[derive(Clone, Copy)]
pub(crate) struct Wide {
    pub(crate) left: Action,
    pub(crate) right: Action,
    pub(crate) clause: u8,
    pub(crate) count: u64,
}

impl Wide {
    /// The refusal that names it.
    pub(crate) fn fault(self) -> PairFault
        ensures { result ≡ TooWide self.left self.right self.clause self.count }
    {
        PairFault::TooWide {
            left: self.left,
            right: self.right,
            clause: self.clause,
            count: self.count,
        }
    }
}

const MOST_PATTERNS: u64 = 30000;

/// The first of all triples that is too wide. The number of patterns of the live triples that are looked at is added to
/// `patterns`.
pub(crate) fn first_wide(spec: &Spec, patterns: &mut u64) -> Option<Wide>
    ensures { MatchOption result (IsNarrow spec.now (IsDeclared spec.now)) (IsFirstWide spec.now (IsDeclared spec.now)) }
{
    for place in 0..action_count(spec) {
        if let Some(wide) = first_wide_of_left(spec, action_at(spec, place), patterns) {
            return Some(wide);
        }
    }
    None
}

// The first of the triples with this action on the left that is too wide.
fn first_wide_of_left(spec: &Spec, left: Action, patterns: &mut u64) -> Option<Wide>
    requires { IsAction spec.now left }
    ensures { MatchOption result (IsNarrow spec.now (IsOfLeft spec.now left)) (IsFirstWide spec.now (IsOfLeft spec.now left)) }
{
    let breakable = breakable_clauses(spec, left);
    for place in 0..action_count(spec) {
        let right = action_at(spec, place);
        if let Some(wide) = first_wide_of_pair(spec, left, right, &breakable, patterns) {
            return Some(wide);
        }
    }
    None
}

/// The first of an ordered pair's triples that is too wide, where it is told which clauses left could break.
pub(crate) fn first_wide_of_pair(
    spec: &Spec,
    left: Action,
    right: Action,
    breakable: &[bool; 32],
    patterns: &mut u64,
) -> Option<Wide>
    requires { AreBreakable spec.now left breakable.now }
    ensures { MatchOption result (IsNarrow spec.now (IsOfPair spec.now left right)) (IsFirstWide spec.now (IsOfPair spec.now left right)) }
{
    for number in 0..clause_count(spec) {
        if let Some(count) = wide_count(spec, left, right, number, breakable, patterns) {
            return Some(Wide {
                left,
                right,
                clause: number,
                count,
            });
        }
    }
    None
}

// The number of patterns of a triple, where it is too wide.
fn wide_count(
    spec: &Spec,
    left: Action,
    right: Action,
    number: u8,
    breakable: &[bool; 32],
    patterns: &mut u64,
) -> Option<u64>
    requires { AreBreakable spec.now left breakable.now }
    ensures { MatchOption result (IsTooWide spec.now left right number → ⊥) (IsWideAt spec.now left right number) }
{
    spec_is_fit(spec);
    match spec.clauses().get(number as usize) {
        None => None,
        Some(clause) => {
            if !breakable[number as usize] {
                return None;
            }
            wide_count_on(spec, left, right, number, clause, patterns)
        }
    }
}

// The same, where the clause of that number is this one.
fn wide_count_on(
    spec: &Spec,
    left: Action,
    right: Action,
    number: u8,
    clause: &Clause,
    patterns: &mut u64,
) -> Option<u64>
    requires { slice_get spec.now.clauses number ≡ Some clause.now }
    ensures { MatchOption result (IsTooWide spec.now left right number → ⊥) (IsWideAt spec.now left right number) }
{
    if !is_live(spec, left, right, clause) {
        return None;
    }
    spec_is_fit(spec);
    patterns_of_triples_fit();
    let sorts = triple_sorts(spec, left, right, clause);
    let constants = constant_counts(spec);
    let count = Patterns::count(sorts.as_slice(), &constants);
    *patterns = patterns.saturating_add(count);
    if count > MOST_PATTERNS {
        Some(count)
    } else {
        None
    }
}

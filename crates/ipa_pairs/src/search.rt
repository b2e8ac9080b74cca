//! The search for conflicts of one specification, one question at a time.
ghost use Rattle.std.specs.Prelude.{◌≡◌, ◌<◌, ℕ, length, IfOk, MatchBool};
ghost use Rattle.ipa_spec.specs.Actions.{IsAction};
ghost use Rattle.ipa_logic.specs.Conflicts.{Conflict};
ghost use Rattle.ipa_pairs.specs.Grounded.{AreOf};
ghost use Rattle.ipa_pairs.specs.Width.{IsDeclared, IsOfPair, IsNarrow};
ghost use Rattle.ipa_pairs.specs.Analyses.{IsApart};

use crate::actions::clause_count;
use crate::breaking::breakable_clauses;
use crate::groundings::Grounding;
use crate::triples::find_conflict;
use crate::width::{first_wide, first_wide_of_pair};
use ipa_reduction::laws::conflicts_are_on_patterns;
use ipa_spec::{Action, List, Spec};
use std::alloc::{AllocError, Global};
use std::marker::Model;

/// The search for conflicts of a specification. What it has grounded is kept for the questions to come.
#[derive(Drop)]
pub struct Search<'a> {
    spec: &'a Spec,
    grounded: List<Grounding<'a>>,
}

impl<'a> Model for Search<'a> {
    ghost use Rattle.ipa_spec.specs.declared.specification.Specification.{Specification};
    ghost use Rattle.ipa_pairs.specs.Grounded.{AreOf};

    ghost Value = { Specification };

    ghost view = { λ a. a.spec.now };

    ghost invariant = { λ a. AreOf a.spec.now a.grounded };
}

impl<'a> Search<'a> {
    /// The search for conflicts of the specification.
    pub fn new(alloc: Global, spec: &'a Spec) -> Search<'a>
        ensures { result ≡ spec.now }
    {
        Search {
            spec,
            grounded: List::new(alloc),
        }
    }

    /// Whether no live triple has more than 30000 patterns.
    pub fn is_narrow(&self) -> bool
        ensures { MatchBool result (IsNarrow self.now (IsDeclared self.now)) (IsNarrow self.now (IsDeclared self.now) → ⊥) }
    {
        let mut patterns = 0;
        match first_wide(self.spec, &mut patterns) {
            None => true,
            Some(_) => false,
        }
    }

    /// Whether two actions conflict on a clause, in this order.
    pub fn has_conflict(
        &mut self,
        alloc: Global,
        left: Action,
        right: Action,
        number: u8,
    ) -> Result<bool, AllocError>
        requires left { IsAction self.old left }
        requires right { IsAction self.old right }
        requires clause { number < length self.old.clauses }
        ensures same { self.new ≡ self.old }
        ensures found { IfOk result (λ found. MatchBool found (Conflict self.old left right number) (Conflict self.old left right number → ⊥)) }
    {
        has_conflict(alloc, self.spec, &mut self.grounded, left, right, number)
    }

    /// Whether no live triple of an ordered pair of actions has more than 30000 patterns, and the two conflict on no
    /// clause. It ends at the first conflict.
    pub fn is_apart(
        &mut self,
        alloc: Global,
        left: Action,
        right: Action,
    ) -> Result<bool, AllocError>
        requires left { IsAction self.old left }
        requires right { IsAction self.old right }
        ensures same { self.new ≡ self.old }
        ensures apart { IfOk result (λ apart. MatchBool apart (IsApart self.old left right) (IsApart self.old left right → ⊥)) }
    {
        if !is_narrow_pair(self.spec, left, right) {
            return Ok(false);
        }
        is_free_of_conflicts(alloc, self.spec, &mut self.grounded, left, right)
    }
}

// Whether no live triple of the ordered pair has more than 30000 patterns.
fn is_narrow_pair(spec: &Spec, left: Action, right: Action) -> bool
    ensures { MatchBool result (IsNarrow spec.now (IsOfPair spec.now left right)) (IsNarrow spec.now (IsOfPair spec.now left right) → ⊥) }
{
    let breakable = breakable_clauses(spec, left);
    let mut patterns = 0;
    match first_wide_of_pair(spec, left, right, &breakable, &mut patterns) {
        None => true,
        Some(_) => false,
    }
}

// Whether the two conflict on the clause of this number.
fn has_conflict<'a>(
    alloc: Global,
    spec: &'a Spec,
    grounded: &mut List<Grounding<'a>>,
    left: Action,
    right: Action,
    number: u8,
) -> Result<bool, AllocError>
    requires left { IsAction spec.now left }
    requires right { IsAction spec.now right }
    requires clause { number < length spec.now.clauses }
    requires of { AreOf spec.now grounded.old }
    ensures of { AreOf spec.now grounded.new }
    ensures found { IfOk result (λ found. MatchBool found (Conflict spec.now left right number) (Conflict spec.now left right number → ⊥)) }
{
    conflicts_are_on_patterns();
    match find_conflict(alloc, spec, grounded, left, right, number)? {
        Some(_) => Ok(true),
        None => Ok(false),
    }
}

// Whether the two conflict on no clause.
fn is_free_of_conflicts<'a>(
    alloc: Global,
    spec: &'a Spec,
    grounded: &mut List<Grounding<'a>>,
    left: Action,
    right: Action,
) -> Result<bool, AllocError>
    requires left { IsAction spec.now left }
    requires right { IsAction spec.now right }
    requires of { AreOf spec.now grounded.old }
    ensures of { AreOf spec.now grounded.new }
    ensures free { IfOk result (λ free. MatchBool free ((k : ℕ) → Conflict spec.now left right k → ⊥) (((k : ℕ) → Conflict spec.now left right k → ⊥) → ⊥)) }
{
    for number in 0..clause_count(spec) {
        if has_conflict(alloc, spec, grounded, left, right, number)? {
            return Ok(false);
        }
    }
    Ok(true)
}

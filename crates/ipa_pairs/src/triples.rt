//! The search for a conflict of two actions on a clause.
//!
//! A triple that is not live is in no conflict. Of one that is, the patterns of its variables are gone
//! through in order. On a pattern, tests that look at no state come first, and most patterns end
//! there. Then each literal that can be lost is taken in clause order, and two states are sought for
//! it, one that left can have left and one that right can have left. Neither depends on the other.
ghost use Rattle.std.specs.Prelude.{◌≡◌, ◌<◌, ℕ, length, List as Items, IfOk, MatchOption};
ghost use Rattle.ipa_spec.specs.Actions.{IsAction};
ghost use Rattle.ipa_logic.specs.Conflicts.{Conflict as InConflict};
ghost use Rattle.ipa_pairs.specs.Analyses.{triple_of};
ghost use Rattle.ipa_pairs.specs.Examples.{IsReportedExample};
ghost use Rattle.ipa_pairs.specs.Grounded.{AreOf};

use crate::analysis::Conflict;
use crate::cases::conflict_on;
use crate::constants::constant_counts;
use crate::groundings::Grounding;
use crate::sorts::triple_sorts;
use ipa_ground::Patterns;
use ipa_logic::is_live;
use ipa_reduction::laws::{conflicts_are_live, conflicts_are_on_patterns, patterns_of_triples_fit};
use ipa_spec::laws::spec_is_fit;
use ipa_spec::{Action, List, Spec};
use std::alloc::{AllocError, Global};

/// The reported example of a triple, and `None` where it is not in conflict.
pub(crate) fn find_conflict<'a>(
    alloc: Global,
    spec: &'a Spec,
    grounded: &mut List<Grounding<'a>>,
    left: Action,
    right: Action,
    number: u8,
) -> Result<Option<Conflict>, AllocError>
    requires left { IsAction spec.now left }
    requires right { IsAction spec.now right }
    requires clause { number < length spec.now.clauses }
    requires of { AreOf spec.now grounded.old }
    ensures of { AreOf spec.now grounded.new }
    ensures found { IfOk result (λ found. MatchOption found
        (InConflict spec.now left right number → ⊥)
        (λ e. IsReportedExample spec.now e × (triple_of e ≡ record { left = left; right = right; clause = number }))) }
{
    spec_is_fit(spec);
    let Some(clause) = spec.clauses().get(number as usize) else {
        unreachable!()
    };
    conflicts_are_live();
    if !is_live(spec, left, right, clause) {
        return Ok(None);
    }
    patterns_of_triples_fit();
    conflicts_are_on_patterns();
    let sorts = triple_sorts(spec, left, right, clause);
    let constants = constant_counts(spec);
    let mut patterns = Patterns::new(sorts.as_slice(), &constants);
    while let Some(pattern) = patterns.next() {
        match conflict_on(alloc, spec, grounded, left, right, number, clause, &pattern)? {
            None => {}
            Some(conflict) => return Ok(Some(conflict)),
        }
    }
    Ok(None)
}

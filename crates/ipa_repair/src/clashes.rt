//! The triples of two actions and a clause that are in conflict, without their examples.
ghost use Rattle.std.specs.Prelude.{◌≡◌, map, IfOk, MatchBool};
ghost use Rattle.std.specs.List.{list_any};
ghost use Rattle.ipa_logic.specs.Conflicts.{Conflict as InConflict};
ghost use Rattle.ipa_pairs.specs.Width.{IsDeclared};
ghost use Rattle.ipa_pairs.specs.Analyses.{AreReported};
ghost use Rattle.ipa_repair.specs.Showing.{AreClashes, clash_of, is_of, is_on};

use crate::listing::same_action;
use ipa_pairs::Conflict;
use ipa_reduction::laws::conflicts_are_on_patterns;
use ipa_spec::{Action, List, Spec};
use std::alloc::{AllocError, Global};

/// Two actions that conflict on a clause, in this order.
#[derive(Clone, Copy)]
pub(crate) struct Clash {
    pub(crate) left: Action,
    pub(crate) right: Action,
    pub(crate) clause: u8,
}

/// The triples in conflict, by all conflicts of the specification.
pub(crate) fn clashes_of(
    alloc: Global,
    spec: &Spec,
    conflicts: &[Conflict],
) -> Result<List<Clash>, AllocError>
    requires { AreReported spec.now (IsDeclared spec.now) conflicts.now }
    ensures { IfOk result (λ clashes. AreClashes spec.now clashes) }
{
    let _spec = spec.clauses();
    conflicts_are_on_patterns();
    let clashes = triples_of(alloc, conflicts)?;
    Ok(clashes)
}

// The triples of the examples.
fn triples_of(alloc: Global, conflicts: &[Conflict]) -> Result<List<Clash>, AllocError>
    ensures { IfOk result (λ clashes. clashes ≡ map clash_of conflicts.now) }
{
    let mut triples = List::new(alloc);
    for conflict in conflicts {
        triples.push(triple_of(conflict))?;
    }
    Ok(triples)
}

// The triple of the example.
fn triple_of(conflict: &Conflict) -> Clash
    ensures { result ≡ clash_of conflict.now }
{
    Clash {
        left: conflict.left,
        right: conflict.right,
        clause: conflict.clause,
    }
}

/// Whether one of the triples is of these two actions, in this order.
pub(crate) fn has_clash(clashes: &[Clash], left: Action, right: Action) -> bool
    ensures { result ≡ list_any (is_of left right) clashes.now }
{
    clashes.iter().any(|clash| same_action(clash.left, left) && same_action(clash.right, right))
}

/// Whether one of them is of these two actions, in this order, and on the clause.
pub(crate) fn has_clash_on(clashes: &[Clash], left: Action, right: Action, number: u8) -> bool
    ensures { result ≡ list_any (is_on left right number) clashes.now }
{
    clashes.iter().any(|clash| {
        same_action(clash.left, left) && same_action(clash.right, right) && clash.clause == number
    })
}

/// Whether two actions conflict on the clause, in this order, by all triples in conflict.
pub(crate) fn is_clash(
    spec: &Spec,
    clashes: &[Clash],
    left: Action,
    right: Action,
    number: u8,
) -> bool
    requires { AreClashes spec.now clashes.now }
    ensures { MatchBool result (InConflict spec.now left right number) (InConflict spec.now left right number → ⊥) }
{
    let _spec = spec.clauses();
    has_clash_on(clashes, left, right, number)
}

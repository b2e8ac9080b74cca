//! The clauses that are reported of a pair of actions.
ghost use Rattle.std.specs.Prelude.{◌∷◌, [], IfOk, OnOk, MatchBool};
ghost use Rattle.ipa_repair.specs.Chosen.{Gains};
ghost use Rattle.ipa_repair.specs.Candidates.{Clashes, AreReportedClauses};
ghost use Rattle.ipa_repair.specs.Showing.{AreClashes};

use crate::clashes::{Clash, is_clash};
use ipa_spec::laws::spec_is_fit;
use ipa_spec::{Action, List, Spec};
use std::alloc::{AllocError, Global};

/// The clauses on which the two actions conflict in some order, in declared order, by all triples in
/// conflict.
pub(crate) fn reported_clauses(
    alloc: Global,
    spec: &Spec,
    clashes: &[Clash],
    left: Action,
    right: Action,
) -> Result<List<u8>, AllocError>
    requires { AreClashes spec.now clashes.now }
    ensures { IfOk result (AreReportedClauses spec.now left right) }
{
    spec_is_fit(spec);
    let mut reported = List::new(alloc);
    for number in 0..spec.clauses().len() as u8 {
        push_reported(spec, clashes, left, right, number, &mut reported)?;
    }
    Ok(reported)
}

// Appends the clause, where the two conflict on it.
fn push_reported(
    spec: &Spec,
    clashes: &[Clash],
    left: Action,
    right: Action,
    number: u8,
    reported: &mut List<u8>,
) -> Result<(), AllocError>
    requires { AreClashes spec.now clashes.now }
    ensures { OnOk result (Gains (Clashes spec.now left right) (number ∷ []) reported.old reported.new) }
{
    if !is_reported(spec, clashes, left, right, number) {
        return Ok(());
    }
    reported.push(number)
}

// Whether the two conflict on the clause in some order.
fn is_reported(spec: &Spec, clashes: &[Clash], left: Action, right: Action, number: u8) -> bool
    requires { AreClashes spec.now clashes.now }
    ensures { MatchBool result (Clashes spec.now left right number) (Clashes spec.now left right number → ⊥) }
{
    is_clash(spec, clashes, left, right, number) || is_clash(spec, clashes, right, left, number)
}

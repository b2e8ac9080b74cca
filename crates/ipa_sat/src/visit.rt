//! Unit propagation at one clause: the literal that it forces is taken.

ghost use Rattle.std.specs.Prelude.{IfOk, OnOk, IfSome};
ghost use Rattle.ipa_sat.specs.Search.{IsReasoned, Follows, VisitTells};

use crate::growing::Growing;
use crate::look::{Hint, Status, look};
use crate::trail::{Taken, Trail};
use std::alloc::AllocError;

/// What came of a visit of a clause.
#[derive(Clone, Copy)]
pub(crate) enum Visit {
    /// The clause is false.
    Broken,
    /// Its last open literal was taken.
    Took,
    /// The clause asks for nothing yet.
    Rests(Hint),
}

/// Looks at a clause, by its place from 0, and takes the literal that it forces.
pub(crate) fn visit_clause(
    cnf: &Growing<'_>,
    trail: &mut Trail,
    place: usize,
) -> Result<Option<Visit>, AllocError>
    requires { IsReasoned cnf.now trail.old }
    ensures follows { OnOk result (Follows cnf.now trail.old trail.new) }
    ensures broken { IfOk result (λ visit. IfSome visit (VisitTells cnf.now trail.new place)) }
{
    let Some(clause) = cnf.clause(place) else {
        return Ok(None);
    };
    match look(clause, trail) {
        Status::Broken => Ok(Some(Visit::Broken)),
        Status::Forced(lit) => {
            trail.push(Taken {
                lit,
                decided: false,
                reason: place,
            })?;
            Ok(Some(Visit::Took))
        }
        Status::Open(hint) => Ok(Some(Visit::Rests(hint))),
    }
}

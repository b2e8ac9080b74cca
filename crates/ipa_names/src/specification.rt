//! The specification that lines declare.
ghost use Rattle.std.specs.Prelude.{◌≡◌, IfOk};
ghost use Rattle.ipa_names.specs.Meaning.{specification_of};
ghost use Rattle.ipa_names.specs.Soundness.{IsSound};

use crate::bounding::bounds_of;
use crate::constants::constants_of;
use crate::declared::Declared;
use crate::laws::is_faultless;
use crate::numbering::{clauses_of, operations_of, predicates_of};
use ipa_spec::{List, Spec};
use std::alloc::{AllocError, Global};

/// The specification that is declared, each name replaced by its number.
pub fn specification_of(alloc: Global, declared: Declared) -> Result<Spec, AllocError>
    requires { IsSound declared }
    ensures { IfOk result (λ spec. spec ≡ specification_of declared) }
{
    is_faultless();
    let constants = constants_of(alloc, &declared)?;
    let predicates = predicates_of(alloc, &declared)?;
    let clauses = clauses_of(alloc, &declared)?;
    let operations = operations_of(alloc, &declared)?;
    let bounds = bounds_of(alloc, &declared)?;
    match Spec::new(
        declared.sorts,
        List::from_vec(constants),
        predicates,
        clauses,
        operations,
        bounds,
    ) {
        Ok(spec) => Ok(spec),
        Err(_) => unreachable!(),
    }
}

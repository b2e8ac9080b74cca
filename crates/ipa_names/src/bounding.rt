//! The bounds that are declared, by numbers in place of names.
ghost use Rattle.std.specs.Prelude.{◌≡◌, ◌≤◌, IfOk, length, map, slice_index_or};
ghost use Rattle.ipa_names.specs.Meaning.{three_names, bound_of};
ghost use Rattle.ipa_names.specs.Soundness.{IsSound};

use crate::declared::{BoundLines, Declared};
use crate::naming::number_or_count;
use crate::numbering::{effects_of, predicate_number};
use crate::scopes::bound_variables;
use ipa_spec::{Bound, List, Name};
use std::alloc::{AllocError, Global};

/// The name in a place, and another past the end.
fn name_at(names: &[Name], place: usize, other: Name) -> Name
    ensures { result ≡ slice_index_or names.now place other }
{
    match names.get(place) {
        Some(name) => *name,
        None => other,
    }
}

/// The first three names: the first one past the end, and the bound's own where there is none.
fn three_names(own: Name, names: &[Name]) -> [Name; 3]
    ensures { result ≡ three_names own names.now }
{
    match names {
        [] => [own, own, own],
        [first, others @ ..] => [
            *first,
            name_at(others, 0, *first),
            name_at(others, 1, *first),
        ],
    }
}

/// A declared bound.
fn bound_of(alloc: Global, declared: &Declared, bound: &BoundLines) -> Result<Bound, AllocError>
    requires predicates { length declared.now.predicates ≤ 32 }
    requires constants { length declared.now.constants ≤ 32 }
    requires variables { length bound.now.vars ≤ 3 }
    requires size { bound.now.most ≤ 65535 }
    ensures { IfOk result (λ bound_is. bound_is ≡ bound_of declared.now bound.now) }
{
    let scope = bound_variables(alloc, declared, bound)?;
    let removes = effects_of(alloc, declared, &scope, bound.removes.as_slice())?;
    Ok(Bound {
        name: bound.name,
        predicate: predicate_number(declared, &bound.predicate),
        vars: three_names(bound.name, bound.vars.as_slice()),
        counted: number_or_count(bound.vars.as_slice(), &bound.counted) as u8,
        most: bound.most as u16,
        removes,
        pick: bound.pick,
    })
}

/// The declared bounds.
pub(crate) fn bounds_of(alloc: Global, declared: &Declared) -> Result<List<Bound>, AllocError>
    requires { IsSound declared.now }
    ensures { IfOk result (λ all. all ≡ map (bound_of declared.now) declared.now.bounds) }
{
    let mut all = List::new(alloc);
    for bound in declared.bounds.as_slice() {
        all.push(bound_of(alloc, declared, bound)?)?;
    }
    Ok(all)
}

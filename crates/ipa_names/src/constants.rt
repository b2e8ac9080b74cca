//! The constants that are declared.
ghost use Rattle.std.specs.Prelude.{◌≡◌, ◌<◌, ◌≤◌, IfOk, IfSome, length, map};
ghost use Rattle.ipa_names.specs.Naming.{number_in};
ghost use Rattle.ipa_names.specs.Scopes.{constants_named};
ghost use Rattle.ipa_names.specs.Meaning.{constant_number, constant_of};

use crate::declared::Declared;
use crate::naming::same_name;
use crate::numbering::sort_number;
use ipa_forms::Typed;
use ipa_spec::{Constant, Name};
use std::alloc::{AllocError, Global};

/// How many constants a sort has.
pub(crate) fn constant_count(constants: &[Typed], sort: &Name) -> usize
    ensures value { result ≡ length (constants_named constants.now sort.now) }
    ensures within { result ≤ length constants.now }
{
    constants
        .iter()
        .filter(|constant| same_name(sort, &constant.sort))
        .count()
}

/// The place of a constant among the declared ones.
fn constant_place(declared: &Declared, name: &Name) -> Option<usize>
    ensures value { result ≡ number_in (map (λ c. c.name) declared.now.constants) name.now }
    ensures within { IfSome result (λ place. place < length declared.now.constants) }
{
    declared
        .constants
        .as_slice()
        .iter()
        .map(|constant| constant.name)
        .position(|other| same_name(&other, name))
}

/// The number of a constant: the count of the constants where it is not declared.
pub(crate) fn constant_number(declared: &Declared, name: &Name) -> u8
    requires { length declared.now.constants ≤ 32 }
    ensures { result ≡ constant_number declared.now name.now }
{
    match constant_place(declared, name) {
        Some(place) => place as u8,
        None => declared.constants.len() as u8,
    }
}

/// The declared constants.
pub(crate) fn constants_of(alloc: Global, declared: &Declared) -> Result<Vec<Constant>, AllocError>
    requires { length declared.now.sorts ≤ 8 }
    ensures { IfOk result (λ all. all.items ≡ map (constant_of declared.now) declared.now.constants) }
{
    declared
        .constants
        .as_slice()
        .iter()
        .map(|constant| Constant {
            name: constant.name,
            sort: sort_number(declared, &constant.sort),
        })
        .collect(alloc)
}

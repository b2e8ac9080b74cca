//! The variables that an argument may name, with their sorts.
ghost use Rattle.std.specs.Prelude.{◌≡◌, take, slice_get};
ghost use Rattle.ipa_spec.specs.Actions.{sorts_of_vars};
ghost use Rattle.ipa_spec.specs.Variables.{sorts_of_variables};

use crate::faults::ranges::first_items;
use crate::lists::List;
use crate::predicates::{Predicate, Var};

// The variables that an argument may name.
#[derive(Clone, Copy)]
pub(super) enum Variables<'a> {
    // Those of a clause or an operation.
    Listed(&'a List<Var>),
    // The places of a bound's predicate, where it is declared.
    Places(Option<&'a Predicate>),
}

impl Variables<'_> {
    // The sort of a variable, where it is declared.
    pub(super) fn sort(&self, variable: u8) -> Option<u8>
        ensures { result ≡ slice_get (sorts_of_variables self.now) variable }
    {
        match self {
            Variables::Listed(vars) => sort_in_list(vars, variable),
            Variables::Places(None) => None,
            Variables::Places(Some(predicate)) => sort_of_place(predicate, variable),
        }
    }
}

fn sort_in_list(vars: &List<Var>, variable: u8) -> Option<u8>
    ensures { result ≡ slice_get (sorts_of_vars vars.now) variable }
{
    vars.get(variable as usize).map(|var| var.sort)
}

fn sort_of_place(predicate: &Predicate, place: u8) -> Option<u8>
    ensures { result ≡ slice_get (take predicate.now.arity predicate.now.sorts) place }
{
    first_items(&predicate.sorts, predicate.arity)
        .get(place as usize)
        .copied()
}

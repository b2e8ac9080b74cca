//! Names that stand twice.
ghost use Rattle.std.specs.Prelude.{◌≡◌};
ghost use Rattle.std.specs.List.{list_any};
ghost use Rattle.ipa_spec.specs.Faults.{same_name, has_repeat};

use crate::bounds::Bound;
use crate::clauses::Clause;
use crate::constants::Constant;
use crate::names::Name;
use crate::operations::Operation;
use crate::predicates::{Predicate, Var};

// What has a name.
pub(super) trait Named {
    ghost use Rattle.ipa_spec.specs.declared.names.Name.{Name};

    ghost name_of: { Self → Name };

    fn name(&self) -> &Name
        ensures { result.now ≡ name_of self.now };
}

impl Named for Name {
    ghost name_of = { λ name. name };

    fn name(&self) -> &Name {
        self
    }
}

impl Named for Constant {
    ghost name_of = { λ constant. constant.name };

    fn name(&self) -> &Name {
        &self.name
    }
}

impl Named for Predicate {
    ghost name_of = { λ predicate. predicate.name };

    fn name(&self) -> &Name {
        &self.name
    }
}

impl Named for Var {
    ghost name_of = { λ var. var.name };

    fn name(&self) -> &Name {
        &self.name
    }
}

impl Named for Clause {
    ghost name_of = { λ clause. clause.name };

    fn name(&self) -> &Name {
        &self.name
    }
}

impl Named for Operation {
    ghost name_of = { λ operation. operation.name };

    fn name(&self) -> &Name {
        &self.name
    }
}

impl Named for Bound {
    ghost name_of = { λ bound. bound.name };

    fn name(&self) -> &Name {
        &self.name
    }
}

// Whether two names are the same.
pub(super) fn same_name(one: &Name, other: &Name) -> bool
    ensures { result ≡ same_name one.now other.now }
{
    one.as_bytes() == other.as_bytes()
}

// Whether one of the items has the name.
fn has_name<T: Named>(name: &Name, items: &[T]) -> bool
    ensures { result ≡ list_any (λ item. same_name name.now (T.name_of item)) items.now }
{
    items.iter().any(|item| same_name(name, item.name()))
}

// Whether two of the items have one name.
pub(super) fn has_repeat<T: Named>(items: &[T]) -> bool
    ensures { result ≡ has_repeat T.name_of items.now }
{
    let mut rest = items;
    while let [first, others @ ..] = rest {
        if has_name(first.name(), others) {
            return true;
        }
        rest = others;
    }
    false
}

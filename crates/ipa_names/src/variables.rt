//! The variables of a list and the constants, looked up by name.
ghost use Rattle.std.specs.Prelude.{◌≡◌, IfOk};
ghost use Rattle.ipa_names.specs.Scopes.{sort_of_variable, AreIndexed};

use crate::naming::equal_names;
use indexmap::IndexMap;
use ipa_forms::Typed;
use ipa_spec::Name;
use std::alloc::{AllocError, Global};
use std::marker::Model;

/// Variables, and the sort of each by its name. Of two with one name the first is meant.
#[derive(Drop)]
pub(crate) struct Variables {
    vars: Vec<Typed>,
    sorts: IndexMap<Name, Name>,
}

impl Model for Variables {
    ghost use Rattle.std.specs.Prelude.{List};
    ghost use Rattle.ipa_forms.specs.declared.forms.Typed.{Typed};
    ghost use Rattle.ipa_names.specs.Scopes.{AreIndexed};

    ghost Value = { List Typed };

    ghost view = { λ v. v.vars.items };

    ghost invariant = { λ v. AreIndexed v.vars.items v.sorts.entries };
}

/// The sorts of variables by their names.
fn sorts_by_name(alloc: Global, vars: &[Typed]) -> Result<IndexMap<Name, Name>, AllocError>
    ensures { IfOk result (λ sorts. AreIndexed vars.now sorts.entries) }
{
    equal_names();
    let mut sorts = IndexMap::new(alloc);
    for variable in vars {
        if sorts.get(&variable.name).is_none() {
            sorts.insert(variable.name, variable.sort)?;
        }
    }
    Ok(sorts)
}

impl Variables {
    /// The variables of a list.
    pub(crate) fn new(alloc: Global, vars: &[Typed]) -> Result<Variables, AllocError>
        ensures { IfOk result (λ own. own ≡ vars.now) }
    {
        let sorts = sorts_by_name(alloc, vars)?;
        let vars = Vec::from_slice(alloc, vars)?;
        Ok(Variables { vars, sorts })
    }

    /// The name of the sort that a variable has.
    pub(crate) fn sort_of(&self, name: &Name) -> Option<Name>
        ensures { result ≡ sort_of_variable self.now name.now }
    {
        equal_names();
        self.sorts.get(name).copied()
    }
}

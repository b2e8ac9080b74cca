//! Names in the order in which they are first seen, and the number of each by an index.
ghost use Rattle.std.specs.Prelude.{◌≡◌, ◌<◌, ◌++◌, [], ◌∷◌, false, length, IfSome, OnOk};
ghost use Rattle.ipa_names.specs.Naming.{is_among, number_in, number_or_count};

use indexmap::IndexSet;
use ipa_names::equal_names;
use ipa_spec::Name;
use std::alloc::{AllocError, Global};
use std::marker::Model;

/// Names of which none stands twice, in the order in which they are first seen. The number of a
/// name is looked up, so that it takes no more time where there are many.
#[derive(Drop)]
pub struct Names {
    names: IndexSet<Name>,
}

impl Model for Names {
    ghost use Rattle.std.specs.Prelude.{List};
    ghost use Rattle.ipa_spec.specs.declared.names.Name.{Name};

    ghost Value = { List Name };

    ghost view = { λ n. n.names.keys };
}

impl Names {
    /// No names.
    pub(crate) fn new(alloc: Global) -> Names
        ensures { result ≡ [] }
    {
        Names {
            names: IndexSet::new(alloc),
        }
    }

    /// The names, in order.
    pub fn as_slice(&self) -> &[Name]
        ensures { result.now ≡ self.now }
    {
        self.names.as_slice()
    }

    /// Whether the name is one of them.
    pub(crate) fn has(&self, name: &Name) -> bool
        ensures { result ≡ is_among self.now name.now }
    {
        equal_names();
        self.names.contains(name)
    }

    /// The number of the name, or the count of the names where it is none of them.
    pub(crate) fn number_or_count(&self, name: &Name) -> usize
        ensures { result ≡ number_or_count self.now name.now }
    {
        equal_names();
        match self.names.get_index_of(name) {
            Some(number) => number,
            None => self.as_slice().len(),
        }
    }

    /// The number of the name, counted from 0, or `None` where it is none of them.
    pub fn number(&self, name: &Name) -> Option<usize>
        ensures value { result ≡ number_in self.now name.now }
        ensures within { IfSome result (λ number. number < length self.now) }
    {
        equal_names();
        self.names.get_index_of(name)
    }

    /// One more name, which is none of them.
    pub(crate) fn push(&mut self, name: Name) -> Result<(), AllocError>
        requires { is_among self.old name ≡ false }
        ensures { OnOk result (self.new ≡ self.old ++ name ∷ []) }
    {
        equal_names();
        let _new = self.names.insert(name)?;
        Ok(())
    }
}

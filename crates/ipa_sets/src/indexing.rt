//! The index of a whole history.
ghost use Rattle.std.specs.Prelude.{◌≡◌, IfOk};
ghost use Rattle.ipa_sets.specs.Indexes.{IsIndexOf};

use crate::index::Index;
use ipa_history::History;
use ipa_spec::Spec;
use std::alloc::{AllocError, Global};

impl Index {
    /// The index of a history, which grows in the memory of `alloc`.
    pub fn of(alloc: Global, spec: &Spec, history: &History) -> Result<Index, AllocError>
        ensures entries { IfOk result (λ index. index.entries ≡ history.now) }
        ensures indexed { IfOk result (IsIndexOf spec.now) }
    {
        let mut index = Index::new(alloc);
        for tx in history.as_slice() {
            index.take(spec, tx)?;
        }
        Ok(index)
    }
}

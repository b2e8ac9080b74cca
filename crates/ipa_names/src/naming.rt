//! Names among names.
ghost use Rattle.std.specs.Prelude.{◌≡◌, ◌<◌, ◌≤◌, IfOk, IfSome, length};
ghost use Rattle.std.specs.List.{list_any};
ghost use Rattle.ipa_spec.specs.Faults.{same_name, has_repeat};
ghost use Rattle.ipa_spec.specs.declared.names.Name.{Name};
ghost use Rattle.ipa_names.specs.Naming.{is_among, number_in, number_or_count};

use indexmap::IndexSet;
use ipa_spec::Name;
use std::alloc::{AllocError, Global};

/// Whether two names are the same.
pub fn same_name(one: &Name, other: &Name) -> bool
    ensures { result ≡ same_name one.now other.now }
{
    one.as_bytes() == other.as_bytes()
}

/// Whether one of the names is this one.
pub fn is_among(names: &[Name], name: &Name) -> bool
    ensures { result ≡ is_among names.now name.now }
{
    names.iter().any(|other| same_name(other, name))
}

/// Names are equal exactly where they have the same bytes.
pub fn equal_names()
    ensures { (one other : Name) → ⟦<Name as PartialEq>⟧.eq one other ≡ same_name other one }
{}

/// Whether a name stands twice. Names are looked up, so that long lists take no more time for each.
pub fn stands_twice(alloc: Global, names: &[Name]) -> Result<bool, AllocError>
    ensures { IfOk result (λ found. found ≡ has_repeat (λ name. name) names.now) }
{
    equal_names();
    let mut seen = IndexSet::new(alloc);
    for name in names {
        if !seen.insert(*name)? {
            return Ok(true);
        }
    }
    Ok(false)
}

/// The place of a name, if it stands there.
pub fn number_in(names: &[Name], name: &Name) -> Option<usize>
    ensures value { result ≡ number_in names.now name.now }
    ensures within { IfSome result (λ place. place < length names.now) }
{
    names.iter().position(|other| same_name(other, name))
}

/// The place of a name, or the count of the names where it does not stand there.
pub fn number_or_count(names: &[Name], name: &Name) -> usize
    ensures value { result ≡ number_or_count names.now name.now }
    ensures within { result ≤ length names.now }
{
    match number_in(names, name) {
        Some(place) => place,
        None => names.len(),
    }
}

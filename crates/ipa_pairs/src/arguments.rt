//! A pattern's classes as arguments and values.
ghost use Rattle.std.specs.Prelude.{◌≡◌, ◌+◌, ◌≤◌, length, take, drop, slice_index};
ghost use Rattle.ipa_spec.specs.Actions.{sorts_of};
ghost use Rattle.ipa_ground.specs.Patterns.{args_at};
ghost use Rattle.ipa_pairs.specs.Patterned.{classes_of};

use crate::sorts::action_sorts;
use ipa_ground::Pattern;
use ipa_spec::laws::spec_is_fit;
use ipa_spec::{Action, Spec};

/// The number of an action's arguments.
pub(crate) fn sort_count(spec: &Spec, action: Action) -> u8
    ensures value { result ≡ length (sorts_of spec.now action) }
    ensures few { result ≤ 4 }
{
    spec_is_fit(spec);
    let sorts = action_sorts(spec, action);
    sorts.as_slice().len() as u8
}

/// The classes of so many variables from a place on, as arguments or values: 0 past them.
pub(crate) fn args_from(pattern: &Pattern, from: u8, count: u8) -> [u16; 4]
    requires few { count ≤ 4 }
    requires within { from + count ≤ pattern.now.len }
    requires width { length pattern.now.classes ≡ 12 }
    requires len { pattern.now.len ≤ 12 }
    ensures { result ≡ args_at from count (classes_of pattern.now) }
{
    [
        class_at(pattern, from, count, 0),
        class_at(pattern, from, count, 1),
        class_at(pattern, from, count, 2),
        class_at(pattern, from, count, 3),
    ]
}

// The class of the variable of this place among so many from a place on, 0 past them.
fn class_at(pattern: &Pattern, from: u8, count: u8, place: u8) -> u16
    requires within { from + count ≤ pattern.now.len }
    requires width { length pattern.now.classes ≡ 12 }
    requires len { pattern.now.len ≤ 12 }
    ensures { result ≡ slice_index (take count (drop from (classes_of pattern.now))) place }
{
    if place < count {
        pattern.classes[(from + place) as usize] as u16
    } else {
        0
    }
}

//! What effects are filed under.
ghost use Rattle.std.specs.Prelude.{◌≡◌, ◌<◌};
ghost use Rattle.ipa_logic.specs.Touches.{stands_for, arg_at};
ghost use Rattle.ipa_sets.specs.Keys.{removed_pattern, fact_pattern, add_key, key_of, remove_key, remove_keys};

use crate::patterns::Pattern;
use ipa_logic::{Fact, element_of_constant, fact_given, value_at};
use ipa_spec::{Arg, Effect, Spec};

/// What an effect does: it adds the one fact of a pattern, or removes each fact of it.
#[derive(Clone, Copy, PartialEq, Eq, PartialOrd, Ord, Hash)]
pub struct Key {
    /// Whether it adds.
    pub adds: bool,
    /// The facts that it does it to.
    pub pattern: Pattern,
}

// The key of an effect: an add is filed under its fact, and a remove under its pattern.
pub(crate) fn key_of(spec: &Spec, args: &[u16; 4], effect: &Effect) -> Key
    ensures { result ≡ key_of spec.now args.now effect.now }
{
    if effect.add {
        add_key(&fact_given(spec, effect, args))
    } else {
        Key {
            adds: false,
            pattern: removed_pattern(spec, args, effect),
        }
    }
}

// The key of the adds of the fact.
pub(crate) fn add_key(fact: &Fact) -> Key
    ensures { result ≡ add_key fact.now }
{
    Key {
        adds: true,
        pattern: Pattern {
            predicate: fact.predicate,
            places: [Some(fact.args[0]), Some(fact.args[1]), Some(fact.args[2])],
        },
    }
}

// The pattern of a remove: its elements, and any for a `*`.
fn removed_pattern(spec: &Spec, args: &[u16; 4], effect: &Effect) -> Pattern
    ensures { result ≡ removed_pattern spec.now args.now effect.now }
{
    Pattern {
        predicate: effect.predicate,
        places: [
            element_in(spec, args, effect, 0),
            element_in(spec, args, effect, 1),
            element_in(spec, args, effect, 2),
        ],
    }
}

// The element that an effect has in a place, or `None` for any.
fn element_in(spec: &Spec, args: &[u16; 4], effect: &Effect, place: usize) -> Option<u16>
    requires { place < 3 }
    ensures { result ≡ stands_for spec.now args.now (arg_at effect.now place) }
{
    match effect.args[place] {
        Arg::Var(variable) => Some(value_at(args, variable)),
        Arg::Const(constant) => Some(element_of_constant(spec, constant)),
        Arg::Any => None,
    }
}

// The keys of the removes that match the fact: each choice of places that have its element, where the others have any.
pub(crate) fn remove_keys(fact: &Fact) -> [Key; 8]
    ensures { result ≡ remove_keys fact.now }
{
    let p = fact.predicate;
    let (a, b, c) = (Some(fact.args[0]), Some(fact.args[1]), Some(fact.args[2]));
    [
        remove_key(p, a, b, c),
        remove_key(p, a, b, None),
        remove_key(p, a, None, c),
        remove_key(p, a, None, None),
        remove_key(p, None, b, c),
        remove_key(p, None, b, None),
        remove_key(p, None, None, c),
        remove_key(p, None, None, None),
    ]
}

// The key of the removes with these places.
fn remove_key(predicate: u8, first: Option<u16>, second: Option<u16>, third: Option<u16>) -> Key
    ensures { result ≡ remove_key predicate first second third }
{
    Key {
        adds: false,
        pattern: Pattern {
            predicate,
            places: [first, second, third],
        },
    }
}

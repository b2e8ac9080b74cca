//! What may stand in the places of an effect that is offered, and the effects with one of it in each place.
ghost use Rattle.std.specs.Prelude.{◌≡◌, ◌<◌, ◌≤◌, ◌++◌, length, not, OnOk, IfOk, ◌==◌};
ghost use Rattle.ipa_spec.specs.Faults.{same_name};
ghost use Rattle.ipa_repair.specs.Candidates.{has_sort, parameter_if, parameters_of, is_named_by, can_be_named, constant_if, constants_for, wildcard_if, choices, choices_at, effects_with_two, effects_with_one, effects_with, effects_on, effects_making};

use ipa_spec::{Arg, Constant, Effect, List, Literal, Name, Predicate, Spec, Var};
use std::alloc::{AllocError, Global};

/// Appends the effects that make the literal true: adds for a fact, removes for a denied one.
pub(crate) fn push_effects_making(
    alloc: Global,
    spec: &Spec,
    params: &[Var],
    literal: &Literal,
    effects: &mut List<Effect>,
) -> Result<(), AllocError>
    requires params { length params.now ≤ 4 }
    requires constants { length spec.now.constants ≤ 32 }
    ensures { OnOk result (effects.new ≡ effects.old ++ effects_making spec.now params.now literal.now) }
{
    match literal {
        Literal::Holds(atom) => push_effects_on(alloc, spec, params, atom.predicate, true, effects),
        Literal::Fails(atom) => push_effects_on(
            alloc,
            spec,
            params,
            atom.predicate,
            false,
            effects,
        ),
        Literal::Same(..) => Ok(()),
        Literal::Differ(..) => Ok(()),
    }
}

// Appends the effects on a predicate that add, or remove.
fn push_effects_on(
    alloc: Global,
    spec: &Spec,
    params: &[Var],
    number: u8,
    add: bool,
    effects: &mut List<Effect>,
) -> Result<(), AllocError>
    requires params { length params.now ≤ 4 }
    requires constants { length spec.now.constants ≤ 32 }
    ensures { OnOk result (effects.new ≡ effects.old ++ effects_on spec.now params.now number add) }
{
    match spec.predicates().get(number as usize) {
        None => Ok(()),
        Some(predicate) => {
            let firsts = choices_at(alloc, spec, params, predicate, !add, 0)?;
            let seconds = choices_at(alloc, spec, params, predicate, !add, 1)?;
            let thirds = choices_at(alloc, spec, params, predicate, !add, 2)?;
            push_effects_with(
                number,
                add,
                firsts.as_slice(),
                seconds.as_slice(),
                thirds.as_slice(),
                effects,
            )
        }
    }
}

// Appends the effects with one of these in each place.
fn push_effects_with(
    number: u8,
    add: bool,
    firsts: &[Arg],
    seconds: &[Arg],
    thirds: &[Arg],
    effects: &mut List<Effect>,
) -> Result<(), AllocError>
    ensures { OnOk result (effects.new ≡ effects.old ++ effects_with number add firsts.now seconds.now thirds.now) }
{
    for first in firsts {
        push_effects_with_one(number, add, *first, seconds, thirds, effects)?;
    }
    Ok(())
}

// Appends the effects with this in the first place.
fn push_effects_with_one(
    number: u8,
    add: bool,
    first: Arg,
    seconds: &[Arg],
    thirds: &[Arg],
    effects: &mut List<Effect>,
) -> Result<(), AllocError>
    ensures { OnOk result (effects.new ≡ effects.old ++ effects_with_one number add seconds.now thirds.now first) }
{
    for second in seconds {
        push_effects_with_two(number, add, first, *second, thirds, effects)?;
    }
    Ok(())
}

// Appends the effects with these in the first two places.
fn push_effects_with_two(
    number: u8,
    add: bool,
    first: Arg,
    second: Arg,
    thirds: &[Arg],
    effects: &mut List<Effect>,
) -> Result<(), AllocError>
    ensures { OnOk result (effects.new ≡ effects.old ++ effects_with_two number add thirds.now first second) }
{
    for third in thirds {
        effects.push(Effect {
            add,
            predicate: number,
            args: [first, second, *third],
        })?;
    }
    Ok(())
}

// What may stand in a place of the predicate.
fn choices_at(
    alloc: Global,
    spec: &Spec,
    params: &[Var],
    predicate: &Predicate,
    wild: bool,
    place: u8,
) -> Result<List<Arg>, AllocError>
    requires params { length params.now ≤ 4 }
    requires constants { length spec.now.constants ≤ 32 }
    requires place { place < 3 }
    ensures { IfOk result (λ args. args ≡ choices_at spec.now params.now predicate.now wild place) }
{
    let mut args = List::new(alloc);
    if place < predicate.arity {
        push_choices(
            spec,
            params,
            predicate.sorts[place as usize],
            wild,
            &mut args,
        )?;
    } else {
        args.push(Arg::Any)?;
    }
    Ok(args)
}

// Appends what may stand in a place of the sort.
fn push_choices(
    spec: &Spec,
    params: &[Var],
    sort: u8,
    wild: bool,
    args: &mut List<Arg>,
) -> Result<(), AllocError>
    requires params { length params.now ≤ 4 }
    requires constants { length spec.now.constants ≤ 32 }
    ensures { OnOk result (args.new ≡ args.old ++ choices spec.now params.now sort wild) }
{
    push_parameters(params, sort, args)?;
    push_constants(spec, params, sort, args)?;
    push_wildcard(wild, args)
}

// Appends `*`, in a remove.
fn push_wildcard(wild: bool, args: &mut List<Arg>) -> Result<(), AllocError>
    ensures { OnOk result (args.new ≡ args.old ++ wildcard_if wild) }
{
    if wild {
        return args.push(Arg::Any);
    }
    Ok(())
}

// Appends the parameters of the sort.
fn push_parameters(params: &[Var], sort: u8, args: &mut List<Arg>) -> Result<(), AllocError>
    requires { length params.now ≤ 4 }
    ensures { OnOk result (args.new ≡ args.old ++ parameters_of params.now sort) }
{
    for number in 0..params.len() as u8 {
        push_parameter(params, sort, number, args)?;
    }
    Ok(())
}

// Appends the parameter, where it is of the sort.
fn push_parameter(
    params: &[Var],
    sort: u8,
    number: u8,
    args: &mut List<Arg>,
) -> Result<(), AllocError>
    ensures { OnOk result (args.new ≡ args.old ++ parameter_if params.now sort number) }
{
    if has_sort(params, sort, number) {
        return args.push(Arg::Var(number));
    }
    Ok(())
}

// Whether the parameter of this number is of the sort.
fn has_sort(params: &[Var], sort: u8, number: u8) -> bool
    ensures { result ≡ has_sort params.now sort number }
{
    match params.get(number as usize) {
        None => false,
        Some(param) => param.sort == sort,
    }
}

// Appends the constants of the sort that no parameter hides.
fn push_constants(
    spec: &Spec,
    params: &[Var],
    sort: u8,
    args: &mut List<Arg>,
) -> Result<(), AllocError>
    requires { length spec.now.constants ≤ 32 }
    ensures { OnOk result (args.new ≡ args.old ++ constants_for spec.now params.now sort) }
{
    for number in 0..spec.constants().len() as u8 {
        push_constant(spec, params, sort, number, args)?;
    }
    Ok(())
}

// Appends the constant, where it is of the sort and no parameter hides it.
fn push_constant(
    spec: &Spec,
    params: &[Var],
    sort: u8,
    number: u8,
    args: &mut List<Arg>,
) -> Result<(), AllocError>
    ensures { OnOk result (args.new ≡ args.old ++ constant_if spec.now params.now sort number) }
{
    if can_be_named(spec, params, sort, number) {
        return args.push(Arg::Const(number));
    }
    Ok(())
}

// Whether the constant of this number is of the sort, and no parameter hides it.
fn can_be_named(spec: &Spec, params: &[Var], sort: u8, number: u8) -> bool
    ensures { result ≡ can_be_named spec.now params.now sort number }
{
    match spec.constants().get(number as usize) {
        None => false,
        Some(constant) => is_of_sort(constant, sort) && !is_named_by(params, constant),
    }
}

fn is_of_sort(constant: &Constant, sort: u8) -> bool
    ensures { result ≡ (constant.now.sort == sort) }
{
    constant.sort == sort
}

// Whether one of the parameters has the constant's name.
fn is_named_by(params: &[Var], constant: &Constant) -> bool
    ensures { result ≡ is_named_by params.now constant.now }
{
    params
        .iter()
        .any(|param| same_name(&param.name, &constant.name))
}

// Whether two names are the same.
fn same_name(one: &Name, other: &Name) -> bool
    ensures { result ≡ same_name one.now other.now }
{
    one.as_bytes() == other.as_bytes()
}

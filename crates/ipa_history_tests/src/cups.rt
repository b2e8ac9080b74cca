//! Players and cups: who is enrolled in a cup is known, and a cup has one place.
use ipa_logic::{Fact, State, Universe};
use ipa_spec::*;
use std::alloc::Global;
use std::test::Fail;

/// Adds a player.
pub const ADD: Action = Action::Op(0);
/// Removes a player and all its enrolments.
pub const REMOVE: Action = Action::Op(1);
/// Enrols a known player in a cup.
pub const ENROLL: Action = Action::Op(2);
/// Removes a player alone.
pub const FORGET: Action = Action::Op(3);
/// Drops an enrolment.
pub const DROP: Action = Action::Drop(0);

/// Three players and two cups.
pub const UNIVERSE: Universe = Universe {
    sizes: [3, 2, 0, 0, 0, 0, 0, 0],
};

/// The state of these facts.
pub fn holding(alloc: Global, facts: &[Fact]) -> Result<State, Fail> {
    let mut state = State::new(alloc);
    for fact in facts {
        state.insert(*fact)?;
    }
    Ok(state)
}

fn name(bytes: &[u8]) -> Result<Name, Fail> {
    Ok(Name::new(bytes).ok_or("these bytes are no name")?)
}

fn list_of<T: Copy>(alloc: Global, items: &[T]) -> Result<List<T>, Fail> {
    Ok(List::from_vec(items.to_vec(alloc)?))
}

fn variable(bytes: &[u8], sort: u8) -> Result<Var, Fail> {
    Ok(Var {
        name: name(bytes)?,
        sort,
    })
}

fn atom(predicate: u8, second: u8) -> Atom {
    Atom {
        predicate,
        args: [Term::Var(0), Term::Var(second), Term::Var(0)],
    }
}

fn effect(add: bool, predicate: u8, second: Arg) -> Effect {
    Effect {
        add,
        predicate,
        args: [Arg::Var(0), second, Arg::Any],
    }
}

fn predicates(alloc: Global) -> Result<List<Predicate>, Fail> {
    let known = Predicate {
        name: name(b"known")?,
        arity: 1,
        sorts: [0, 0, 0],
        rule: Rule::AddWins,
    };
    let enrolled = Predicate {
        name: name(b"enrolled")?,
        arity: 2,
        sorts: [0, 1, 0],
        rule: Rule::RemoveWins,
    };
    list_of(alloc, &[known, enrolled])
}

fn clauses(alloc: Global) -> Result<List<Clause>, Fail> {
    let literals = [Literal::Fails(atom(1, 1)), Literal::Holds(atom(0, 0))];
    let mut clauses = List::new(alloc);
    clauses.push(Clause {
        name: name(b"c1")?,
        vars: list_of(alloc, &[variable(b"p", 0)?, variable(b"t", 1)?])?,
        literals: list_of(alloc, &literals)?,
    })?;
    Ok(clauses)
}

fn operation(
    alloc: Global,
    called: &[u8],
    params: &[Var],
    needs: &[Literal],
    effects: &[Effect],
) -> Result<Operation, Fail> {
    Ok(Operation {
        name: name(called)?,
        params: list_of(alloc, params)?,
        needs: list_of(alloc, needs)?,
        effects: list_of(alloc, effects)?,
    })
}

fn operations(alloc: Global) -> Result<List<Operation>, Fail> {
    let player = [variable(b"p", 0)?];
    let both = [player[0], variable(b"t", 1)?];
    let gone = [effect(false, 0, Arg::Any), effect(false, 1, Arg::Any)];
    let needs = [Literal::Holds(atom(0, 0))];
    let mut all = List::new(alloc);
    all.push(operation(alloc, b"add", &player, &[], &[effect(true, 0, Arg::Any)])?)?;
    all.push(operation(alloc, b"remove", &player, &[], &gone)?)?;
    all.push(operation(
        alloc,
        b"enroll",
        &both,
        &needs,
        &[effect(true, 1, Arg::Var(1))],
    )?)?;
    all.push(operation(alloc, b"forget", &player, &[], &[gone[0]])?)?;
    Ok(all)
}

fn bounds(alloc: Global, pick: Pick) -> Result<List<Bound>, Fail> {
    let mut all = List::new(alloc);
    all.push(Bound {
        name: name(b"cap")?,
        predicate: 1,
        vars: [name(b"p")?, name(b"t")?, name(b"p")?],
        counted: 0,
        most: 1,
        removes: List::new(alloc),
        pick,
    })?;
    Ok(all)
}

/// The specification, with the bound's pick.
pub fn spec_of(alloc: Global, pick: Pick) -> Result<Spec, Fail> {
    let sorts = list_of(alloc, &[name(b"player")?, name(b"cup")?])?;
    match Spec::new(
        sorts,
        List::new(alloc),
        predicates(alloc)?,
        clauses(alloc)?,
        operations(alloc)?,
        bounds(alloc, pick)?,
    ) {
        Ok(spec) => Ok(spec),
        Err(_) => Err("the specification has a fault".into()),
    }
}

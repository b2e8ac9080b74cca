//! The parts of specifications over one sort, in which all predicates are add-wins.
use ipa_spec::{
    Arg, Atom, Clause, Effect, List, Literal, Name, Operation, Predicate, Rule, Term, Var,
};
use std::alloc::Global;
use std::test::Fail;

/// A name.
pub(crate) fn name(bytes: &[u8]) -> Result<Name, Fail> {
    match Name::new(bytes) {
        Some(name) => Ok(name),
        None => Err("no name".into()),
    }
}

/// A predicate with so many places.
pub(crate) fn predicate(bytes: &[u8], arity: u8) -> Result<Predicate, Fail> {
    Ok(Predicate {
        name: name(bytes)?,
        arity,
        sorts: [0; 3],
        rule: Rule::AddWins,
    })
}

/// The first variables of these names.
pub(crate) fn variables(alloc: Global, names: &[u8]) -> Result<List<Var>, Fail> {
    let mut vars = List::new(alloc);
    for byte in names {
        vars.push(Var {
            name: name(&[*byte])?,
            sort: 0,
        })?;
    }
    Ok(vars)
}

/// The fact of a predicate with these terms, and `Var(0)` past them.
pub(crate) fn atom(predicate: u8, args: [Term; 3]) -> Atom {
    Atom { predicate, args }
}

/// The variable of this number alone.
pub(crate) fn of(variable: u8) -> [Term; 3] {
    [Term::Var(variable), Term::Var(0), Term::Var(0)]
}

/// A clause over variables of these names.
pub(crate) fn clause(alloc: Global, names: &[u8], literals: Vec<Literal>) -> Result<Clause, Fail> {
    Ok(Clause {
        name: name(b"k")?,
        vars: variables(alloc, names)?,
        literals: List::from_vec(literals),
    })
}

/// An effect on the facts of a predicate with these arguments.
pub(crate) fn effect(add: bool, predicate: u8, args: [Arg; 3]) -> Effect {
    Effect {
        add,
        predicate,
        args,
    }
}

/// An operation with parameters of these names, which needs nothing.
pub(crate) fn operation(
    alloc: Global,
    bytes: &[u8],
    names: &[u8],
    effects: Vec<Effect>,
) -> Result<Operation, Fail> {
    Ok(Operation {
        name: name(bytes)?,
        params: variables(alloc, names)?,
        needs: List::new(alloc),
        effects: List::from_vec(effects),
    })
}

//! The specifications that are analysed.
use crate::building::{atom, clause, effect, name, of, operation, predicate};
use ipa_spec::{
    Arg, Bound, Clause, Constant, List, Literal, Operation, Pick, Predicate, Spec, Term,
};
use std::alloc::Global;
use std::test::Fail;

/// A specification that is analysed.
#[derive(Clone, Copy, Debug)]
pub(crate) enum Subject {
    /// `root` has to be an administrator while it is locked, and `strip` takes that from any user.
    Root,
    /// The same, but `lock` makes `root` an administrator again.
    RootMended,
    /// Each pair of two operations has twelve variables with the clause, which none of them can break.
    Dead,
    /// Two facts exclude each other, and nine variables have 21147 patterns.
    Many,
    /// A bound whose drop takes the youngest fact, on which another fact rests.
    Youngest,
}

// The specification with one sort and these parts.
fn spec_with(
    alloc: Global,
    constants: List<Constant>,
    predicates: Vec<Predicate>,
    clause: Clause,
    operations: Vec<Operation>,
    bounds: List<Bound>,
) -> Result<Spec, Fail> {
    let sorts = List::from_vec(vec![in alloc; name(b"thing")?]?);
    let clauses = List::from_vec(vec![in alloc; clause]?);
    match Spec::new(
        sorts,
        constants,
        List::from_vec(predicates),
        clauses,
        List::from_vec(operations),
        bounds,
    ) {
        Ok(spec) => Ok(spec),
        Err(_) => Err("a fault".into()),
    }
}

/// The specification of this name.
pub(crate) fn spec_of(alloc: Global, subject: Subject) -> Result<Spec, Fail> {
    match subject {
        Subject::Root => root(alloc, false),
        Subject::RootMended => root(alloc, true),
        Subject::Dead => dead(alloc),
        Subject::Many => many(alloc),
        Subject::Youngest => youngest(alloc),
    }
}

// Locking `root`, and taking a user's rights.
fn root(alloc: Global, is_mended: bool) -> Result<Spec, Fail> {
    let root = [Term::Const(0), Term::Var(0), Term::Var(0)];
    let constants = vec![in alloc;
        Constant {
            name: name(b"root")?,
            sort: 0,
        },
    ]?;
    let fixed = [Arg::Const(0), Arg::Any, Arg::Any];
    let mut effects = vec![in alloc; effect(true, 1, fixed)]?;
    if is_mended {
        effects.push(effect(true, 0, fixed))?;
    }
    let stripping = vec![in alloc; effect(false, 0, [Arg::Var(0), Arg::Any, Arg::Any])]?;
    spec_with(
        alloc,
        List::from_vec(constants),
        vec![in alloc; predicate(b"admin", 1)?, predicate(b"locked", 1)?]?,
        clause(
            alloc,
            b"",
            vec![in alloc;
                Literal::Fails(atom(1, root)),
                Literal::Holds(atom(0, root)),
            ]?,
        )?,
        vec![in alloc;
            operation(alloc, b"lock", b"", effects)?,
            operation(alloc, b"strip", b"u", stripping)?,
        ]?,
        List::new(alloc),
    )
}

// Operations on facts of which the clause says nothing.
fn dead(alloc: Global) -> Result<Spec, Fail> {
    let first = [Term::Var(0), Term::Var(1), Term::Var(0)];
    let second = [Term::Var(2), Term::Var(3), Term::Var(0)];
    let adding = vec![in alloc;
        effect(true, 1, [Arg::Var(0), Arg::Var(1), Arg::Any]),
        effect(true, 1, [Arg::Var(2), Arg::Var(3), Arg::Any]),
    ]?;
    let removing = vec![in alloc;
        effect(false, 0, [Arg::Var(0), Arg::Var(1), Arg::Any]),
        effect(false, 0, [Arg::Var(2), Arg::Var(3), Arg::Any]),
    ]?;
    spec_with(
        alloc,
        List::new(alloc),
        vec![in alloc; predicate(b"a", 2)?, predicate(b"b", 2)?]?,
        clause(
            alloc,
            b"pqrs",
            vec![in alloc;
                Literal::Fails(atom(0, first)),
                Literal::Fails(atom(0, second)),
            ]?,
        )?,
        vec![in alloc;
            operation(alloc, b"one", b"pqrs", adding)?,
            operation(alloc, b"two", b"pqrs", removing)?,
        ]?,
        List::new(alloc),
    )
}

// Two facts of which only one may stand for the same three things.
fn many(alloc: Global) -> Result<Spec, Fail> {
    let all = [Term::Var(0), Term::Var(1), Term::Var(2)];
    let given = [Arg::Var(0), Arg::Var(1), Arg::Var(2)];
    let first = vec![in alloc; effect(true, 0, given)]?;
    let second = vec![in alloc; effect(true, 1, given)]?;
    spec_with(
        alloc,
        List::new(alloc),
        vec![in alloc; predicate(b"a", 3)?, predicate(b"b", 3)?]?,
        clause(
            alloc,
            b"pqr",
            vec![in alloc; Literal::Fails(atom(0, all)), Literal::Fails(atom(1, all))]?,
        )?,
        vec![in alloc;
            operation(alloc, b"add_a", b"pqr", first)?,
            operation(alloc, b"add_b", b"pqr", second)?,
        ]?,
        List::new(alloc),
    )
}

// A fact that rests on one that a bound drops.
fn youngest(alloc: Global) -> Result<Spec, Fail> {
    let given = [Arg::Var(0), Arg::Any, Arg::Any];
    let adding = vec![in alloc; effect(true, 0, given), effect(true, 1, given)]?;
    let bounds = vec![in alloc;
        Bound {
            name: name(b"most")?,
            predicate: 0,
            vars: [name(b"p")?; 3],
            counted: 0,
            most: 1,
            removes: List::new(alloc),
            pick: Pick::Youngest,
        },
    ]?;
    spec_with(
        alloc,
        List::new(alloc),
        vec![in alloc; predicate(b"a", 1)?, predicate(b"b", 1)?]?,
        clause(
            alloc,
            b"p",
            vec![in alloc;
                Literal::Fails(atom(1, of(0))),
                Literal::Holds(atom(0, of(0))),
            ]?,
        )?,
        vec![in alloc; operation(alloc, b"add", b"p", adding)?]?,
        List::from_vec(bounds),
    )
}

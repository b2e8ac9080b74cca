//! The forms of a document's lines: what a line says, by names, before any name is looked up.
use ipa_spec::{List, Name, Pick, Rule};

/// A variable, a parameter or a constant with the name of its sort.
#[derive(Clone, Copy, PartialEq, Eq)]
pub struct Typed {
    /// Its own name.
    pub name: Name,
    /// The name of its sort.
    pub sort: Name,
}

/// A predicate with names in parentheses.
#[derive(Clone, Drop)]
pub struct AtomForm {
    /// The predicate's name.
    pub predicate: Name,
    /// The names in its places, of variables or of constants.
    pub args: List<Name>,
}

/// A literal of a `clause` or `need` line.
#[derive(Clone, Drop)]
pub enum LiteralForm {
    /// `PRED(VAR,..)`
    Holds(AtomForm),
    /// `not PRED(VAR,..)`
    Fails(AtomForm),
    /// `VAR = VAR`
    Same(Name, Name),
    /// `VAR != VAR`
    Differ(Name, Name),
}

/// What a line says. `None` among arguments or places stands for `*`.
#[derive(Clone, Drop)]
pub enum Form {
    /// `sort NAME`
    Sort {
        name: Name,
    },
    /// `const NAME: SORT`
    Const {
        constant: Typed,
    },
    /// `pred NAME(SORT,..) addwins` or `remwins`
    Pred {
        name: Name,
        sorts: List<Name>,
        rule: Rule,
    },
    /// `clause NAME(VAR:SORT,..): LIT or LIT ..`
    Clause {
        name: Name,
        vars: List<Typed>,
        literals: List<LiteralForm>,
    },
    /// `op NAME(VAR:SORT,..)`
    Op {
        name: Name,
        params: List<Typed>,
    },
    /// `need LIT`
    Need {
        literal: LiteralForm,
    },
    /// `add PRED(A,..)`
    Add {
        predicate: Name,
        args: List<Option<Name>>,
    },
    /// `del PRED(A,..)`
    Del {
        predicate: Name,
        args: List<Option<Name>>,
    },
    /// `bound NAME PRED(VAR,..) counts VAR most NUMBER`, and `youngest` behind it where the youngest fact is picked
    Bound {
        name: Name,
        predicate: Name,
        vars: List<Name>,
        counted: Name,
        most: u32,
        pick: Pick,
    },
    /// `drops PRED(A,..)`
    Drops {
        predicate: Name,
        args: List<Option<Name>>,
    },
    /// `elem SORT ELEM ELEM ..`
    Elem {
        sort: Name,
        elements: List<Name>,
    },
    /// `base PRED(ELEM,..)`
    Base {
        predicate: Name,
        elements: List<Name>,
    },
    /// `replicas NUMBER`
    Replicas {
        number: u32,
    },
    /// `session NUMBER`
    Session {
        number: u32,
    },
    /// `do NAME(ELEM,..)`
    Do {
        operation: Name,
        elements: List<Name>,
    },
    /// `show PRED(E,..)`
    Show {
        predicate: Name,
        places: List<Option<Name>>,
    },
}

//! What the specification lines of a document declare, by names.
use ipa_forms::{LiteralForm, Typed};
use ipa_spec::{List, Name, Pick, Rule};

/// A declared predicate.
#[derive(Drop)]
pub struct PredicateLine {
    /// Its name.
    pub name: Name,
    /// The names of the sorts of its places.
    pub sorts: List<Name>,
    /// Which of two concurrent effects wins.
    pub rule: Rule,
}

/// A declared clause.
#[derive(Drop)]
pub struct ClauseLine {
    /// Its name.
    pub name: Name,
    /// Its variables.
    pub vars: List<Typed>,
    /// Its literals, of which one has to be true.
    pub literals: List<LiteralForm>,
}

/// An effect, or a further remove of a bound.
#[derive(Drop)]
pub struct EffectLine {
    /// Whether it adds; else it removes.
    pub add: bool,
    /// The name of its predicate.
    pub predicate: Name,
    /// The names in its places, of variables or of constants; `None` stands for `*`.
    pub args: List<Option<Name>>,
}

/// A declared operation with its needs and effects.
#[derive(Drop)]
pub struct OperationLines {
    /// Its name.
    pub name: Name,
    /// Its parameters.
    pub params: List<Typed>,
    /// What has to hold where it is carried out.
    pub needs: List<LiteralForm>,
    /// What it adds and removes.
    pub effects: List<EffectLine>,
}

/// A declared bound with its further removes.
#[derive(Drop)]
pub struct BoundLines {
    /// Its name.
    pub name: Name,
    /// The name of its predicate.
    pub predicate: Name,
    /// The names of the variables in its predicate's places.
    pub vars: List<Name>,
    /// The name of the counted variable.
    pub counted: Name,
    /// The greatest size of a group.
    pub most: u32,
    /// Which fact of a group over the bound a drop removes.
    pub pick: Pick,
    /// What is removed beside a dropped fact.
    pub removes: List<EffectLine>,
}

/// What the specification lines declare, each kind in declared order.
#[derive(Drop)]
pub struct Declared {
    /// The names of the sorts.
    pub sorts: List<Name>,
    /// The constants, each with its sort.
    pub constants: List<Typed>,
    /// The predicates.
    pub predicates: List<PredicateLine>,
    /// The clauses.
    pub clauses: List<ClauseLine>,
    /// The operations.
    pub operations: List<OperationLines>,
    /// The bounds.
    pub bounds: List<BoundLines>,
}

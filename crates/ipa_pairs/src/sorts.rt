//! The sorts of the variables of a triple, and of a drop and a clause.
ghost use Rattle.std.specs.Prelude.{◌≡◌, ◌+◌, ◌≤◌, ◌<◌, [], ◌∷◌, ◌++◌, length, take};
ghost use Rattle.ipa_spec.specs.Actions.{place_sorts, sorts_of, sorts_of_vars};
ghost use Rattle.ipa_reduction.specs.Cases.{triple_sorts, drop_sorts};

use ipa_spec::laws::spec_is_fit;
use ipa_spec::{Action, Clause, Predicate, Spec, Var};
use std::marker::Model;

/// Sorts of at most twelve variables, in order.
#[derive(Drop)]
pub(crate) struct Sorts {
    numbers: [u8; 12],
    len: u8,
}

impl Model for Sorts {
    ghost use Rattle.std.specs.Prelude.{ℕ, ◌≤◌, List, take};

    ghost Value = { List ℕ };

    ghost view = { λ a. take a.len a.numbers };

    ghost invariant = { λ a. a.len ≤ 12 };
}

impl Sorts {
    // No sorts.
    fn none() -> Sorts
        ensures { result ≡ [] }
    {
        Sorts {
            numbers: [0; 12],
            len: 0,
        }
    }

    // Appends a sort.
    fn push(&mut self, sort: u8)
        requires few { length self.old < 12 }
        ensures { self.new ≡ self.old ++ sort ∷ [] }
    {
        self.numbers[self.len as usize] = sort;
        self.len += 1;
    }

    // Appends the sorts of some variables.
    fn push_vars(&mut self, vars: &[Var])
        requires few { length self.old + length vars.now ≤ 12 }
        ensures { self.new ≡ self.old ++ sorts_of_vars vars.now }
    {
        for var in vars {
            self.push(var.sort);
        }
    }

    // Appends the sorts of a predicate's places.
    fn push_places(&mut self, predicate: &Predicate)
        requires short { predicate.now.arity ≤ 3 }
        requires few { length self.old + length (take predicate.now.arity predicate.now.sorts) ≤ 12 }
        ensures { self.new ≡ self.old ++ take predicate.now.arity predicate.now.sorts }
    {
        for place in 0..predicate.arity {
            self.push(predicate.sorts[place as usize]);
        }
    }

    // Appends the sorts of the places of the predicate of this number.
    fn push_predicate(&mut self, spec: &Spec, number: u8)
        requires few { length self.old + length (place_sorts spec.now.predicates number) ≤ 12 }
        ensures { self.new ≡ self.old ++ place_sorts spec.now.predicates number }
    {
        spec_is_fit(spec);
        match spec.predicates().get(number as usize) {
            Some(predicate) => self.push_places(predicate),
            None => (),
        }
    }

    // Appends the sorts of an action's arguments.
    fn push_action(&mut self, spec: &Spec, action: Action)
        requires few { length self.old + length (sorts_of spec.now action) ≤ 12 }
        ensures { self.new ≡ self.old ++ sorts_of spec.now action }
    {
        match action {
            Action::Op(number) => match spec.operations().get(number as usize) {
                Some(operation) => self.push_vars(operation.params.as_slice()),
                None => (),
            },
            Action::Drop(number) => match spec.bounds().get(number as usize) {
                Some(bound) => self.push_predicate(spec, bound.predicate),
                None => (),
            },
        }
    }

    /// The sorts as a slice.
    pub(crate) fn as_slice(&self) -> &[u8]
        ensures { result.now ≡ self.now }
    {
        &self.numbers[..self.len as usize]
    }
}

/// The sorts of a triple's variables: left's arguments, right's, and the clause's.
pub(crate) fn triple_sorts(spec: &Spec, left: Action, right: Action, clause: &Clause) -> Sorts
    requires few { length (triple_sorts spec.now left right clause.now) ≤ 12 }
    ensures { result ≡ triple_sorts spec.now left right clause.now }
{
    let mut sorts = Sorts::none();
    sorts.push_action(spec, left);
    sorts.push_action(spec, right);
    sorts.push_vars(clause.vars.as_slice());
    sorts
}

/// The sorts of the variables of a drop and a clause: its fact's places, and the clause's variables.
pub(crate) fn drop_sorts(spec: &Spec, bound: u8, clause: &Clause) -> Sorts
    requires few { length (drop_sorts spec.now bound clause.now) ≤ 12 }
    ensures { result ≡ drop_sorts spec.now bound clause.now }
{
    let mut sorts = Sorts::none();
    sorts.push_action(spec, Action::Drop(bound));
    sorts.push_vars(clause.vars.as_slice());
    sorts
}

/// The sorts of an action's arguments.
pub(crate) fn action_sorts(spec: &Spec, action: Action) -> Sorts
    requires few { length (sorts_of spec.now action) ≤ 12 }
    ensures { result ≡ sorts_of spec.now action }
{
    let mut sorts = Sorts::none();
    sorts.push_action(spec, action);
    sorts
}

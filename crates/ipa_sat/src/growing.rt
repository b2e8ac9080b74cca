//! A formula that grows. The given clauses stay where they are, so that a search copies none of them;
//! behind them stand the clauses that were learned.

ghost use Rattle.std.specs.Prelude.{◌≡◌, ◌<◌, ◌++◌, [], ◌∷◌, true, All, OnOk, OnErr, IfSome, IfNone, length, slice_get};
ghost use Rattle.std.specs.Option.{option_copied};
ghost use Rattle.ipa_sat.specs.Formula.{IsInRange, IsFalseAt, clause_true};

use crate::assignment::first_false;
use crate::cnf::{Cnf, Lit};
use std::alloc::{AllocError, Global};
use std::marker::Model;

/// A formula, and the clauses that were learned from it.
#[derive(Drop)]
pub(crate) struct Growing<'a> {
    given: &'a Cnf,
    learned: Cnf,
}

impl<'a> Model for Growing<'a> {
    ghost use Rattle.std.specs.Prelude.{◌≡◌, ◌++◌};
    ghost use Rattle.ipa_sat.specs.Formula.{Formula};

    ghost Value = { Formula };

    ghost view = { λ a. record { vars = a.given.now.vars; clauses = a.given.now.clauses ++ a.learned.clauses } };

    ghost invariant = { λ a. a.learned.vars ≡ a.given.now.vars };
}

impl<'a> Growing<'a> {
    /// A formula of which nothing was learned yet.
    pub fn new(alloc: Global, given: &'a Cnf) -> Growing<'a>
        ensures { result ≡ given.now }
    {
        Growing {
            given,
            learned: Cnf::new(alloc, given.vars()),
        }
    }

    /// The number of variables.
    pub fn vars(&self) -> u32
        ensures { result ≡ self.now.vars }
    {
        self.given.vars()
    }

    /// The number of clauses.
    pub fn len(&self) -> usize
        ensures { result ≡ length self.now.clauses }
    {
        self.given.len() + self.learned.len()
    }

    /// The clause at a place, counted from 0 in the order in which they were added.
    pub fn clause(&self, place: usize) -> Option<&[Lit]>
        ensures value { option_copied result ≡ slice_get self.now.clauses place }
        ensures range { IfSome result (λ c. All (λ l. l.var < self.now.vars) c.now) }
    {
        let given = self.given.len();
        if place < given {
            self.given.clause(place)
        } else {
            self.learned.clause(place - given)
        }
    }

    /// Adds a clause at the end. Where memory is wanting, the formula stays as it was.
    pub fn add_clause(&mut self, lits: &[Lit]) -> Result<(), AllocError>
        requires { All (λ l. l.var < self.old.vars) lits.now }
        ensures ok { OnOk result (self.new ≡ record self.old { clauses = self.old.clauses ++ lits.now ∷ [] }) }
        ensures err { OnErr result (self.new ≡ self.old) }
    {
        self.learned.add_clause(lits)
    }

    /// The place of the first clause that is false under an assignment.
    pub fn first_false(&self, values: &[bool]) -> Option<usize>
        ensures some { IfSome result (IsFalseAt self.now values.now) }
        ensures range { IsInRange self.now.vars self.now.clauses }
        ensures none { IfNone result (All (λ c. clause_true values.now c ≡ true) self.now.clauses) }
    {
        let given = self.given.len();
        let _count = self.learned.len();
        let learned = first_false(&self.learned, values);
        match first_false(self.given, values) {
            Some(place) => Some(place),
            None => match learned {
                Some(place) => Some(given + place),
                None => None,
            },
        }
    }
}

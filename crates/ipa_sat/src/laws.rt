//! The law of refutations. Its function computes nothing: its contract is the law.

ghost use Rattle.ipa_sat.specs.Formula.{IsUnsatisfiable};
ghost use Rattle.ipa_sat.specs.Refutation.{IsRefutation, clauses_of};

use crate::cnf::Cnf;
use crate::list::List;
use crate::refutation::Step;

/// A formula that has a refutation is satisfied by no assignment, whoever made the refutation.
pub fn refutations_are_sound(cnf: &Cnf, steps: &List<Step>)
    requires { IsRefutation cnf.now.clauses (clauses_of steps.now) }
    ensures { IsUnsatisfiable cnf.now }
{}

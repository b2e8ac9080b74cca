//! The literals of one instance of a clause, in place: an instance has at most six.
ghost use Rattle.std.specs.Prelude.{◌≡◌, ◌↔◌, ◌<◌, [], ◌∷◌, ◌++◌, IsTrue, length};
ghost use Rattle.std.specs.List.{Any};
ghost use Rattle.ipa_ground.specs.GroundingSteps.{IsOpposite};

use ipa_sat::Lit;
use std::marker::Model;

/// At most six literals, in order.
#[derive(Drop)]
pub(crate) struct Disjunction {
    lits: [Lit; 6],
    len: u8,
}

impl Model for Disjunction {
    ghost use Rattle.std.specs.Prelude.{List, ◌≤◌, take};
    ghost use Rattle.ipa_sat.specs.declared.cnf.Lit.{Lit};

    ghost Value = { List Lit };

    ghost view = { λ a. take a.len a.lits };

    ghost invariant = { λ a. a.len ≤ 6 };
}

impl Disjunction {
    /// No literal.
    pub(crate) fn new() -> Disjunction
        ensures { result ≡ [] }
    {
        Disjunction {
            lits: [Lit {
                var: 0,
                positive: false,
            }; 6],
            len: 0,
        }
    }

    /// Puts a literal at the end.
    pub(crate) fn push(&mut self, lit: Lit)
        requires { length self.old < 6 }
        ensures { self.new ≡ self.old ++ lit ∷ [] }
    {
        self.lits[self.len as usize] = lit;
        self.len += 1;
    }

    /// Whether one of the literals is the opposite of this one.
    pub(crate) fn has_opposite(&self, lit: Lit) -> bool
        ensures { IsTrue result ↔ Any (IsOpposite lit) self.now }
    {
        self.as_slice().iter().any(|other| is_opposite(lit, *other))
    }

    /// The literals, in order.
    pub(crate) fn as_slice(&self) -> &[Lit]
        ensures { result.now ≡ self.now }
    {
        &self.lits[..self.len as usize]
    }
}

// Whether two literals are opposites.
fn is_opposite(one: Lit, other: Lit) -> bool
    ensures { IsTrue result ↔ IsOpposite one other }
{
    one.var == other.var && one.positive != other.positive
}

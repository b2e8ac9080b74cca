//! Views of a state that tell how young its facts are.
ghost use Rattle.ipa_logic.specs.declared.facts.Age.{Age as TheAge};

use ipa_logic::{Age, Fact, State, View};

/// A view that tells how young each true fact is. Its meaning is an age for each of them beside the list of the
/// true facts. It takes no memory.
pub trait AgedView: View {
    ghost use Rattle.std.specs.Prelude.{◌≡◌, true};
    ghost use Rattle.ipa_logic.specs.Facts.{has};
    ghost use Rattle.ipa_logic.specs.declared.facts.Fact.{Fact as TheFact};
    ghost use Rattle.ipa_logic.specs.declared.facts.Age.{Age as TheAge};

    ghost ages: { Self → TheFact → TheAge };

    /// The age of a fact that is true.
    fn age(&self, fact: &Fact) -> Age
        requires { has (Self.facts self.now) fact.now ≡ true }
        ensures { result ≡ ages self.now fact.now };
}

impl AgedView for State {
    ghost ages = { λ s f. record { size = 0; origin = 0 } };

    fn age(&self, _fact: &Fact) -> Age {
        Age { size: 0, origin: 0 }
    }
}

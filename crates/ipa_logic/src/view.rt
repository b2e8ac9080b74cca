//! Views: whatever stands for a state and can be asked for its facts.
use crate::facts::Fact;

/// What stands for a state. Its meaning is the list of the true facts, in order.
pub trait View {
    ghost use Rattle.std.specs.Prelude.{◌≡◌, List};
    ghost use Rattle.ipa_logic.specs.Facts.{has, IsRising};
    ghost use Rattle.ipa_logic.specs.Views.{next_fact};
    ghost use Rattle.ipa_logic.specs.declared.facts.Fact.{Fact as TheFact};

    ghost facts: { Self → List TheFact };

    /// Whether the fact is true.
    fn holds(&self, fact: &Fact) -> bool
        ensures value { result ≡ has (facts self.now) fact.now }
        ensures rising { IsRising (facts self.now) };

    /// The least true fact of the predicate above `after`, or the least of all where that is `None`.
    fn next_true(&self, predicate: u8, after: Option<Fact>) -> Option<Fact>
        ensures value { result ≡ next_fact (facts self.now) predicate after }
        ensures rising { IsRising (facts self.now) };
}

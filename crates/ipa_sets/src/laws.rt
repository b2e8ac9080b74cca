//! What holds of every set of facts. These functions compute nothing: their contracts are the laws.
ghost use Rattle.std.specs.Prelude.{◌≡◌, ◌<◌, ℕ, List, true};
ghost use Rattle.ipa_clock.specs.Cut.{count_of};
ghost use Rattle.ipa_clock.specs.declared.cut.Cut.{Cut};
ghost use Rattle.ipa_spec.specs.declared.specification.Specification.{Specification};
ghost use Rattle.ipa_logic.specs.Facts.{has, IsStateOf};
ghost use Rattle.ipa_logic.specs.declared.facts.Fact.{Fact};
ghost use Rattle.ipa_history.specs.Ages.{age_of, age_at};
ghost use Rattle.ipa_history.specs.Histories.{number_of, IsHistory};
ghost use Rattle.ipa_history.specs.Values.{value_of, value_at};
ghost use Rattle.ipa_history.specs.declared.history.Tx.{Tx};
ghost use Rattle.ipa_sets.specs.FactSets.{lasts_on, true_facts, IsFactsOf};
ghost use Rattle.ipa_sets.specs.Lasts.{age_by_lasts};
ghost use Rattle.ipa_sets.specs.declared.facts.Facts.{Facts};

/// A set that stands for a history is the state of all its transactions, and each fact has the age that they give it.
pub fn facts_are_the_state()
    ensures state { (s : Specification) (base : List Fact) (taken : List Tx) (facts : Facts) →
        IsFactsOf s base taken facts → IsStateOf (value_of s base taken) (true_facts facts) }
    ensures ages { (s : Specification) (base : List Fact) (taken : List Tx) (facts : Facts) (f : Fact) →
        IsFactsOf s base taken facts → has (true_facts facts) f ≡ true → age_by_lasts (lasts_on facts f) ≡ age_of s taken f }
{}

/// At the cut with all transactions of a history the values and the ages are those of all of them.
pub fn the_whole_cut_has_all()
    ensures values { (s : Specification) (base : List Fact) (h : List Tx) (c : Cut) (f : Fact) → IsHistory h →
        ((origin : ℕ) → origin < 16 → count_of c origin ≡ number_of origin h) → value_at s base h c f ≡ value_of s base h f }
    ensures ages { (s : Specification) (h : List Tx) (c : Cut) (f : Fact) → IsHistory h →
        ((origin : ℕ) → origin < 16 → count_of c origin ≡ number_of origin h) → age_at s h c f ≡ age_of s h f }
{}

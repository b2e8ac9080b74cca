//! The laws of patterns and of the enumeration of facts. Each function does nothing: its contract is the law.
ghost use Rattle.std.specs.Prelude.{◌≡◌, ◌↔◌, ℕ, List, true};
ghost use Rattle.std.specs.List.Sorted.{IsStrictlySortedBy};
ghost use Rattle.std.specs.Ordering.{nat_cmp};
ghost use Rattle.std.specs.Cmp.Lexicographic.{slice_cmp};
ghost use Rattle.ipa_spec.specs.declared.specification.Specification.{Specification};
ghost use Rattle.ipa_logic.specs.Facts.{Universe, IsFact, IsRising, has};
ghost use Rattle.ipa_logic.specs.declared.facts.Fact.{Fact};
ghost use Rattle.ipa_ground.specs.Enumeration.{AreShort, IsListed, facts_over};
ghost use Rattle.ipa_ground.specs.Patterns.{AreConstants, AreSorts, IsPattern, PatternFor, Renames, SameEqualities, patterns};

/// The list of patterns has exactly the patterns, each once and in lexicographic order.
pub fn patterns_are_listed_once()
    ensures listed { (constants : Universe) (sorts classes : List ℕ) → IsListed (patterns constants sorts) classes ↔ IsPattern constants sorts classes }
    ensures rising { (constants : Universe) (sorts : List ℕ) → IsStrictlySortedBy (slice_cmp nat_cmp) (patterns constants sorts) }
{}

/// For all elements of the variables, in whatever universe, there is exactly one pattern in which
/// variables of one sort have the same class just where they have the same element, and a constant's
/// class just where they have the constant; and its classes stand for the elements.
pub fn one_pattern_has_the_equalities()
    ensures some { (constants : Universe) (sorts elements : List ℕ) → AreConstants constants → AreSorts sorts → PatternFor constants sorts elements }
    ensures equalities { (constants : Universe) (sorts classes elements : List ℕ) → AreConstants constants → AreSorts sorts → IsPattern constants sorts classes
        → Renames constants sorts classes elements → SameEqualities constants sorts classes elements }
    ensures renames { (constants : Universe) (sorts classes elements : List ℕ) → AreConstants constants → AreSorts sorts → IsPattern constants sorts classes
        → SameEqualities constants sorts classes elements → Renames constants sorts classes elements }
    ensures one { (constants : Universe) (sorts p q elements : List ℕ) → AreConstants constants → AreSorts sorts → IsPattern constants sorts p → IsPattern constants sorts q
        → SameEqualities constants sorts p elements → SameEqualities constants sorts q elements → p ≡ q }
{}

/// The facts over a universe are listed strictly in their order, and no others are.
pub fn facts_are_listed_once()
    ensures listed { (s : Specification) (universe : Universe) (f : Fact) → AreShort s.predicates → (has (facts_over s.predicates universe) f ≡ true) ↔ IsFact s universe f }
    ensures rising { (s : Specification) (universe : Universe) → AreShort s.predicates → IsRising (facts_over s.predicates universe) }
{}

//! The laws of cases. Each function does nothing: its contract is the law.
ghost use Rattle.std.specs.Prelude.{◌≡◌, ℕ, ◌≤◌, true, length, slice_get, Some, List};
ghost use Rattle.ipa_spec.specs.Actions.{IsAction};
ghost use Rattle.ipa_spec.specs.Fits.{IsFit};
ghost use Rattle.ipa_spec.specs.declared.specification.Specification.{Specification};
ghost use Rattle.ipa_spec.specs.declared.bounds.Bound.{Bound};
ghost use Rattle.ipa_spec.specs.declared.clauses.Clause.{Clause};
ghost use Rattle.ipa_spec.specs.declared.operations.Action.{Action};
ghost use Rattle.ipa_spec.specs.declared.operations.Action.TheVariants.{Drop};
ghost use Rattle.ipa_logic.specs.Conflicts.{Conflict, falsifies_some, can_break, is_live};
ghost use Rattle.ipa_logic.specs.Acceptance.{DropBreaks};
ghost use Rattle.ipa_ground.specs.Patterns.{AreConstants, AreSorts};
ghost use Rattle.ipa_ground.specs.Places.{AreSmall};
ghost use Rattle.ipa_reduction.specs.Cases.{constant_counts, triple_sorts, IsTriplePattern, triple_universe, AreTripleArguments, ConflictOn, ConflictOnSome, drop_sorts, IsDropPattern, drop_universe, drop_args, drop_values, AreDropArguments, DropBreaksOn, DropBreaksOnSome};

/// Two actions conflict on a clause only where each of them could, by predicates and kinds, make a literal of it
/// false.
pub fn conflicts_are_live()
    ensures { (s : Specification) (left right : Action) (k : ℕ) (c : Clause) → slice_get s.clauses k ≡ Some c
        → Conflict s left right k → is_live s left right c ≡ true }
{}

/// Two actions conflict on a clause, over some universe, exactly where they do on some pattern of
/// their variables: both states can be restricted to the constants and to the elements that the
/// variables name.
pub fn conflicts_are_on_patterns()
    ensures some { (s : Specification) (left right : Action) (k : ℕ) (c : Clause) → IsFit s → slice_get s.clauses k ≡ Some c
        → Conflict s left right k → ConflictOnSome s left right c }
    ensures conflict { (s : Specification) (left right : Action) (k : ℕ) (c : Clause) (classes : List ℕ) → IsAction s left → IsAction s right → slice_get s.clauses k ≡ Some c
        → ConflictOn s left right c classes → Conflict s left right k }
{}

/// The drop of a bound can break a clause only where it could, by predicates and kinds, make a literal of it false,
/// and it breaks one on a pattern only where it makes a literal false there.
pub fn breaking_drops_falsify()
    ensures clauses { (s : Specification) (n k : ℕ) (c : Clause) → slice_get s.clauses k ≡ Some c
        → DropBreaks s n k → can_break s (Drop n) c ≡ true }
    ensures patterns { (s : Specification) (n k : ℕ) (b : Bound) (c : Clause) (classes : List ℕ) → slice_get s.clauses k ≡ Some c
        → DropBreaksOn s n b c classes → falsifies_some s (Drop n) (drop_args s n classes) (drop_values s n c classes) c.literals ≡ true }
{}

/// The drop of a bound can break a clause, over some universe, exactly where it does on some pattern
/// of its fact's places and the clause's variables.
pub fn unsafe_drops_are_on_patterns()
    ensures some { (s : Specification) (n k : ℕ) (b : Bound) (c : Clause) → IsFit s → slice_get s.bounds n ≡ Some b → slice_get s.clauses k ≡ Some c
        → DropBreaks s n k → DropBreaksOnSome s n b c }
    ensures breaks { (s : Specification) (n k : ℕ) (b : Bound) (c : Clause) (classes : List ℕ) → slice_get s.clauses k ≡ Some c
        → DropBreaksOn s n b c classes → DropBreaks s n k }
{}

/// No sort has more than four constants, and a triple has at most twelve variables. The universe of each of its patterns is small, and the
/// pattern's classes are arguments and values over it.
pub fn patterns_of_triples_fit()
    ensures constants { (s : Specification) → IsFit s → AreConstants (constant_counts s) }
    ensures few { (s : Specification) (left right : Action) (k : ℕ) (c : Clause) → IsFit s → slice_get s.clauses k ≡ Some c → length (triple_sorts s left right c) ≤ 12 }
    ensures sorts { (s : Specification) (left right : Action) (k : ℕ) (c : Clause) → IsFit s → slice_get s.clauses k ≡ Some c → AreSorts (triple_sorts s left right c) }
    ensures small { (s : Specification) (left right : Action) (k : ℕ) (c : Clause) (classes : List ℕ) → IsFit s → slice_get s.clauses k ≡ Some c
        → IsTriplePattern s left right c classes → AreSmall (triple_universe s left right c classes) }
    ensures arguments { (s : Specification) (left right : Action) (k : ℕ) (c : Clause) (classes : List ℕ) → IsFit s → slice_get s.clauses k ≡ Some c
        → IsTriplePattern s left right c classes → AreTripleArguments s left right c classes }
{}

/// No sort has more than four constants, and a drop and a clause have few enough variables for a pattern. The universe of each of their patterns
/// is small, and the pattern's classes are arguments and values over it.
pub fn patterns_of_drops_fit()
    ensures constants { (s : Specification) → IsFit s → AreConstants (constant_counts s) }
    ensures few { (s : Specification) (n k : ℕ) (c : Clause) → IsFit s → slice_get s.clauses k ≡ Some c → length (drop_sorts s n c) ≤ 12 }
    ensures sorts { (s : Specification) (n k : ℕ) (c : Clause) → IsFit s → slice_get s.clauses k ≡ Some c → AreSorts (drop_sorts s n c) }
    ensures small { (s : Specification) (n k : ℕ) (c : Clause) (classes : List ℕ) → IsFit s → slice_get s.clauses k ≡ Some c
        → IsDropPattern s n c classes → AreSmall (drop_universe s n c classes) }
    ensures arguments { (s : Specification) (n k : ℕ) (c : Clause) (classes : List ℕ) → IsFit s → slice_get s.clauses k ≡ Some c
        → IsDropPattern s n c classes → AreDropArguments s n c classes }
{}

//! What holds of every action. These functions compute nothing: their contracts are the laws.
ghost use Rattle.std.specs.Prelude.{◌≡◌, ℕ, Bool, true, false, List, slice_get, Some};
ghost use Rattle.ipa_spec.specs.declared.specification.Specification.{Specification};
ghost use Rattle.ipa_spec.specs.declared.operations.Action.{Action as TheAction};
ghost use Rattle.ipa_spec.specs.declared.clauses.Clause.{Clause as TheClause};
ghost use Rattle.ipa_logic.specs.Facts.{Universe as Sizes};
ghost use Rattle.ipa_logic.specs.Truth.{IsValues, Keeps, instance_true};
ghost use Rattle.ipa_logic.specs.Touches.{plain_application};
ghost use Rattle.ipa_logic.specs.Conflicts.{falsifies_some};
ghost use Rattle.ipa_logic.specs.declared.facts.Fact.{Fact as TheFact};

/// Touched instances suffice: where the state before keeps all clauses, an instance that is not true after the
/// action has a literal that the action makes false.
pub fn touched_instances_suffice()
    ensures { (s : Specification) (sizes : Sizes) (action : TheAction) (args values : List ℕ) (before : TheFact → Bool) (k : ℕ) (c : TheClause)
        → Keeps s sizes before → slice_get s.clauses k ≡ Some c → IsValues sizes c values
        → instance_true s (plain_application s action args before) values c ≡ false → falsifies_some s action args values c.literals ≡ true }
{}

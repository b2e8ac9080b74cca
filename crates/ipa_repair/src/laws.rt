//! The laws of offers and repairs. These functions do nothing: what they ensure is the law.
ghost use Rattle.std.specs.Prelude.{◌≡◌, ◌↔◌, ℕ, List};
ghost use Rattle.ipa_spec.specs.Fits.{IsFit};
ghost use Rattle.ipa_spec.specs.declared.specification.Specification.{Specification};
ghost use Rattle.ipa_spec.specs.declared.operations.Action.{Action};
ghost use Rattle.ipa_logic.specs.Conflicts.{Conflict};
ghost use Rattle.ipa_repair.specs.Offers.{AreOffers};
ghost use Rattle.ipa_repair.specs.Greedy.{IsStep, IsRepaired};
ghost use Rattle.ipa_repair.specs.Unchanged.{IsAlike};
ghost use Rattle.ipa_repair.specs.declared.candidates.Offer.{Offer};
ghost use Rattle.ipa_repair.specs.declared.steps.RepairStep.{RepairStep};
ghost use Rattle.ipa_repair.specs.declared.steps.Repaired.{Repaired};

use ipa_pairs::one_analysis;

/// A pair of actions has one list of offers, and a specification at most one next step of the greedy repair, which
/// leads to one specification, and at most one greedy repair: its steps and how it ends are one.
pub fn one_repair()
    ensures offers { (s : Specification) (left right : Action) (one other : List Offer) → AreOffers s left right one → AreOffers s left right other → one ≡ other }
    ensures step { (s next beside : Specification) (one other : RepairStep) → IsStep s one next → IsStep s other beside → (one ≡ other) × (next ≡ beside) }
    ensures repair { (s : Specification) (one other : Repaired) → IsFit s → IsRepaired s one → IsRepaired s other → one ≡ other }
{
    one_analysis();
}

/// Whether two actions conflict on a clause is decided by their own parameters, needs and effects, by the clauses, and by
/// how the literals of this clause are judged: which of them win, and which of them some action can make false. Where none
/// of this changes, nor do the conflicts of the two on the clause, whatever else does.
pub fn conflicts_are_local()
    ensures { (s next : Specification) (left right : Action) (k : ℕ) → IsAlike s next left right k → (Conflict s left right k ↔ Conflict next left right k) }
{}

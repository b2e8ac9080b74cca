//! Laws on audits. These functions do nothing: what they ensure is the law.
ghost use Rattle.std.specs.Prelude.{◌≡◌, ℕ, List, length};
ghost use Rattle.ipa_spec.specs.declared.specification.Specification.{Specification};
ghost use Rattle.ipa_clock.specs.declared.cut.Cut.{Cut};
ghost use Rattle.ipa_logic.specs.Facts.{Universe};
ghost use Rattle.ipa_logic.specs.declared.facts.Fact.{Fact};
ghost use Rattle.ipa_logic.specs.declared.facts.Request.{Request};
ghost use Rattle.ipa_history.specs.Answers.{IsAnswer};
ghost use Rattle.ipa_history.specs.declared.history.Tx.{Tx};
ghost use Rattle.ipa_history.specs.declared.answers.Answer.{Answer};
ghost use Rattle.ipa_history.specs.declared.reasons.Reason.{Reason};
ghost use Rattle.ipa_gate.specs.Settings.{SettingParts, IsSetting};
ghost use Rattle.ipa_gate.specs.Offers.{IsAdmitted, IsUnlawful};
ghost use Rattle.ipa_journal.specs.declared.journal.Journal.{Journal};
ghost use Rattle.ipa_audit.specs.BadLines.{IsBadAt};
ghost use Rattle.ipa_audit.specs.Verdicts.{IsLawfulJournal};
ghost use Rattle.ipa_audit.specs.declared.verdict.AuditFault.{AuditFault};

/// A request has one answer at a cut.
pub fn law_one_answer()
    ensures { (s : Specification) (universe : Universe) (base : List Fact) (h : List Tx) (cut : Cut) (origin : ℕ)
        (request : Request) (one other : Answer) → IsAnswer s universe base h cut origin request one →
        IsAnswer s universe base h cut origin request other → one ≡ other }
{}

/// Against a transaction that a log takes as new there is no reason, and against one that is not legal where it comes
/// next there is one first reason.
pub fn law_one_reason()
    ensures admitted { (s : SettingParts) (h : List Tx) (t : Tx) (r : Reason) → IsAdmitted s h t → IsUnlawful s h t r → ⊥ }
    ensures reason { (s : SettingParts) (h : List Tx) (t : Tx) (r q : Reason) → IsUnlawful s h t r → IsUnlawful s h t q → r ≡ q }
{}

/// A journal with a bad line is not lawful. So an audit answers `Legal` exactly where the journal is lawful.
pub fn law_bad_is_unlawful()
    ensures { (s : SettingParts) (requests : List (List Request)) (j : Journal) (line : ℕ) (fault : AuditFault) →
        IsSetting s → s.sessions ≡ length requests → IsBadAt s requests j line fault →
        IsLawfulJournal s requests j → ⊥ }
{}

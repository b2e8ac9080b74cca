//! The laws of analyses. These functions do nothing: what they ensure is the law.
ghost use Rattle.std.specs.Prelude.{◌≡◌, ℕ, List};
ghost use Rattle.ipa_spec.specs.Actions.{IsAction};
ghost use Rattle.ipa_spec.specs.Fits.{IsFit};
ghost use Rattle.ipa_spec.specs.declared.specification.Specification.{Specification};
ghost use Rattle.ipa_spec.specs.declared.operations.Action.{Action};
ghost use Rattle.ipa_pairs.specs.Width.{Triple, IsDeclared, IsFirstTooWide};
ghost use Rattle.ipa_pairs.specs.Examples.{IsReportedExample, IsReportedDrop};
ghost use Rattle.ipa_pairs.specs.Analyses.{triple_of, IsAnalysis, IsPairAnalysis};
ghost use Rattle.ipa_pairs.specs.declared.analysis.Conflict.{Conflict as Example};
ghost use Rattle.ipa_pairs.specs.declared.analysis.UnsafeDrop.{UnsafeDrop};
ghost use Rattle.ipa_pairs.specs.declared.analysis.Analysis.{Analysis};

use ipa_reduction::laws::{conflicts_are_on_patterns, unsafe_drops_are_on_patterns};

/// There is at most one reported example of a triple, and of a bound and a clause, and so at most one
/// analysis of a specification, and of an ordered pair of its actions.
pub fn one_analysis()
    ensures example { (s : Specification) (d e : Example) → IsFit s → IsReportedExample s d → IsReportedExample s e → triple_of d ≡ triple_of e → d ≡ e }
    ensures unsafe_drop { (s : Specification) (d e : UnsafeDrop) → IsFit s → IsReportedDrop s d → IsReportedDrop s e → d.bound ≡ e.bound → d.clause ≡ e.clause → d ≡ e }
    ensures pair { (s : Specification) (left right : Action) (one other : List Example) → IsFit s → IsAction s left → IsAction s right
        → IsPairAnalysis s left right one → IsPairAnalysis s left right other → one ≡ other }
    ensures analysis { (s : Specification) (one other : Analysis) → IsFit s → IsAnalysis s one → IsAnalysis s other → one ≡ other }
{
    conflicts_are_on_patterns();
    unsafe_drops_are_on_patterns();
}

/// There is at most one first triple that is too wide, with one count, and no analysis beside it.
pub fn one_refusal()
    ensures too_wide { (s : Specification) (t u : Triple) (count other : ℕ) → IsFirstTooWide s (IsDeclared s) t count → IsFirstTooWide s (IsDeclared s) u other → (t ≡ u) × (count ≡ other) }
    ensures apart { (s : Specification) (t : Triple) (count : ℕ) (a : Analysis) → IsFirstTooWide s (IsDeclared s) t count → IsAnalysis s a → ⊥ }
{}

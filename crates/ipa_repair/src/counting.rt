//! How many constants a specification can have. The function computes nothing: its contract is the law.
ghost use Rattle.std.specs.Prelude.{◌≤◌, length};
ghost use Rattle.ipa_spec.specs.Fits.{IsFit};
ghost use Rattle.ipa_spec.specs.declared.specification.Specification.{Specification};

/// A specification has at most 32 constants: at most 4 of each of its at most 8 sorts.
pub(crate) fn constants_are_few()
    ensures { (s : Specification) → IsFit s → length s.constants ≤ 32 }
{}

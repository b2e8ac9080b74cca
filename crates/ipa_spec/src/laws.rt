//! What holds of every specification. These functions compute nothing: their contracts are the laws.
ghost use Rattle.ipa_spec.specs.Fits.{IsFit};
ghost use Rattle.ipa_spec.specs.Limits.{IsFaultless};
ghost use Rattle.ipa_spec.specs.declared.specification.Specification.{Specification};

use crate::faultless::Spec;

/// In a specification every number names something, every variable and constant stands in places of its own sort,
/// and each count is within its limit.
pub fn spec_is_fit(spec: &Spec)
    ensures faultless { IsFaultless spec.now }
    ensures fit { IsFit spec.now }
{
    let _parts = spec.faultless_parts();
}

/// Parts without a fault are fit.
pub fn faultless_parts_are_fit()
    ensures { (s : Specification) → IsFaultless s → IsFit s }
{}

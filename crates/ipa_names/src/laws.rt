//! Laws on what is declared. These functions do nothing: what they ensure is the law.
ghost use Rattle.std.specs.Prelude.{◌≡◌, None};
ghost use Rattle.ipa_spec.specs.Limits.{fault_of};
ghost use Rattle.ipa_names.specs.Meaning.{specification_of};
ghost use Rattle.ipa_names.specs.Soundness.{IsSound};
ghost use Rattle.ipa_names.specs.declared.declared.Declared.{Declared};

/// What is sound by names is a specification without a fault.
pub fn is_faultless()
    ensures { (d : Declared) → IsSound d → fault_of (specification_of d) ≡ None }
{}

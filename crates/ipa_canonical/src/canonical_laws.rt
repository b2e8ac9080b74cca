//! Laws on canonical texts. These functions do nothing: what they ensure is the law.
ghost use Rattle.std.specs.Prelude.{◌≡◌, map};
ghost use Rattle.std.specs.List.{All};
ghost use Rattle.ipa_spec.specs.Limits.{IsFaultless};
ghost use Rattle.ipa_spec.specs.declared.specification.Specification.{Specification};
ghost use Rattle.ipa_text.specs.Lines.{line_text, lines_of};
ghost use Rattle.ipa_forms.specs.Layout.{line_of};
ghost use Rattle.ipa_canonical.specs.Canonical.{canonical_text, forms_of};
ghost use Rattle.ipa_canonical.specs.Sentences.{HasLiterals, IsSaidBy};

use ipa_forms::reads_back;
use ipa_text::written_text;

/// The lines of a canonical text are those of its forms, in their order, and each says its form.
pub fn canonical_lines()
    ensures lines { (s : Specification) → IsFaultless s → HasLiterals s → map (line_text (canonical_text s)) (lines_of (canonical_text s)) ≡ map line_of (forms_of s) }
    ensures said { (s : Specification) → IsFaultless s → HasLiterals s → All (λ form. IsSaidBy (line_of form) form) (forms_of s) }
{
    written_text();
    reads_back();
}

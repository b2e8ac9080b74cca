//! Laws on canonical texts that are read again. These functions do nothing: what they ensure is the law.
//!
//! They speak of specifications that can be printed, as all specifications of documents can.
ghost use Rattle.std.specs.Prelude.{◌≡◌, ◌↔◌, ◌⊎◌, ℕ, List};
ghost use Rattle.ipa_spec.specs.declared.specification.Specification.{Specification};
ghost use Rattle.ipa_reader.specs.Documents.{ReadsAs, AreAccepted, IsRefused};
ghost use Rattle.ipa_names.specs.Meaning.{specification_of};
ghost use Rattle.ipa_reader.specs.Standings.{standing_of};
ghost use Rattle.ipa_reader.specs.declared.document.Document.{Document};
ghost use Rattle.ipa_reader.specs.declared.refusals.DocKind.{DocKind};
ghost use Rattle.ipa_canonical.specs.Canonical.{canonical_text, forms_of};
ghost use Rattle.ipa_canonical.specs.Alone.{constants_alone, IsAlone};
ghost use Rattle.ipa_canonical.specs.Printable.{IsPrintable};
ghost use Rattle.ipa_canonical.specs.Rereading.{is_no_fact, IsReadBack, IsRefusedBack, IsThatRefusal};
ghost use Rattle.ipa_logic.specs.Truth.{Keeps};

use crate::canonical_laws::canonical_lines;
use ipa_forms::{one_form, reads_back};
use ipa_reader::{document_faultless, one_reading, standing_is_sound};
use ipa_text::one_cut;

/// The specification of a document can be printed.
pub fn fit_to_print()
    ensures { (bytes : List ℕ) (document : Document) → ReadsAs bytes document → IsPrintable document.spec }
{
    document_faultless();
    standing_is_sound();
}

/// The lines of a canonical text declare the specification that it was printed from.
pub fn declares_itself()
    ensures { (s : Specification) → IsPrintable s → specification_of (standing_of (forms_of s)).declared ≡ s }
{
    one_form();
    reads_back();
}

/// No line of a canonical text is refused, given those before it.
pub fn none_refused()
    ensures { (s : Specification) → IsPrintable s → AreAccepted (forms_of s) }
{}

/// Where a canonical text reads as a document, its specification is the one that the text was
/// printed from, and its setup is the one that no line says, with the constants as elements.
pub fn reads_as_itself()
    ensures { (s : Specification) (document : Document) → IsPrintable s → ReadsAs (canonical_text s) document → IsAlone s document }
{
    declares_itself();
    none_refused();
    standing_is_sound();
    canonical_lines();
    one_cut();
    one_form();
}

/// A canonical text is read back whole.
///
/// It reads as the document that has the specification alone exactly where no clause is broken without facts, where the
/// constants are all the elements. Elsewhere it is refused at its last line, for the first instance that is broken there,
/// and for nothing else.
pub fn is_read_back()
    ensures exactly { (s : Specification) → IsPrintable s → (IsReadBack s ↔ Keeps s (constants_alone s) is_no_fact) }
    ensures either { (s : Specification) → IsPrintable s → IsReadBack s ⊎ IsRefusedBack s }
    ensures refusals { (s : Specification) (line : ℕ) (kind : DocKind) → IsPrintable s → IsRefused (canonical_text s) line kind → IsThatRefusal s line kind }
{
    none_refused();
    standing_is_sound();
    declares_itself();
    canonical_lines();
    one_reading();
}

/// What is printed of the specification of a document is read back whole.
pub fn document_read_back()
    ensures { (bytes : List ℕ) (document : Document) → ReadsAs bytes document → IsReadBack document.spec ⊎ IsRefusedBack document.spec }
{
    fit_to_print();
    is_read_back();
}

//! The laws of what is printed of a repair. The functions do nothing: what they ensure is the law.
ghost use Rattle.std.specs.Prelude.{◌⊎◌, ℕ, List};
ghost use Rattle.ipa_spec.specs.declared.specification.Specification.{Specification};
ghost use Rattle.ipa_reader.specs.Documents.{ReadsAs};
ghost use Rattle.ipa_reader.specs.declared.document.Document.{Document};
ghost use Rattle.ipa_canonical.specs.Printable.{IsPrintable};
ghost use Rattle.ipa_canonical.specs.Rereading.{IsReadBack, IsRefusedBack};
ghost use Rattle.ipa_repair.specs.Greedy.{IsRepaired};
ghost use Rattle.ipa_repair.specs.declared.steps.Repaired.{Repaired};
ghost use Rattle.ipa_report.specs.RepairTexts.{end_of};

use ipa_canonical::{fit_to_print, is_read_back};

/// A repair of a specification that can be printed ends in one that can be printed.
pub fn repaired_is_printable()
    ensures { (s : Specification) (repaired : Repaired) → IsPrintable s → IsRepaired s repaired → IsPrintable (end_of repaired) }
{}

/// What is printed of the repair of a document's specification is read back whole: as the repaired specification, with its
/// constants as the only elements, or, where a clause is broken there without facts, is refused for that instance.
pub fn repaired_reads_back()
    ensures { (bytes : List ℕ) (document : Document) (repaired : Repaired) → ReadsAs bytes document →
        IsRepaired document.spec repaired → IsReadBack (end_of repaired) ⊎ IsRefusedBack (end_of repaired) }
{
    fit_to_print();
    is_read_back();
    repaired_is_printable();
}

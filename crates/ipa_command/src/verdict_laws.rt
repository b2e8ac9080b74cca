//! The law that the first cases of every verdict stand on. It does nothing: what it ensures is the law.
ghost use Rattle.ipa_command.specs.VerdictLaws.{AreOne};

use ipa_pairs::{one_analysis, one_refusal};
use ipa_reader::{document_faultless, one_reading};

/// There is one reading of a text, one analysis of its specification, and one first triple that is too wide.
pub fn first_cases_are_one()
    ensures { AreOne }
{
    one_reading();
    document_faultless();
    one_analysis();
    one_refusal();
}

//! Words.
ghost use Rattle.std.specs.Prelude.{◌≡◌};
ghost use Rattle.std.specs.List.{list_all};
ghost use Rattle.ipa_text.specs.Bytes.{is_name_byte};
ghost use Rattle.ipa_text.specs.Words.{is_word, starts_with_letter};

use crate::classes::is_name_byte;

/// The length of the longest words.
const LONGEST_WORD: usize = 24;

/// Whether the first byte is a letter.
fn starts_with_letter(run: &[u8]) -> bool
    ensures { result ≡ starts_with_letter run.now }
{
    match run {
        [] => false,
        [first, ..] => first.is_ascii_alphabetic(),
    }
}

/// Whether there are only letters, digits and underscores.
fn has_only_name_bytes(run: &[u8]) -> bool
    ensures { result ≡ list_all is_name_byte run.now }
{
    run.iter().all(|byte| is_name_byte(*byte))
}

/// Whether a run of letters, digits and underscores is a word.
pub(crate) fn is_word(run: &[u8]) -> bool
    ensures { result ≡ is_word run.now }
{
    starts_with_letter(run) && run.len() <= LONGEST_WORD && has_only_name_bytes(run)
}

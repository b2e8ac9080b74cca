//! Laws on journals. These functions do nothing: what they ensure is the law.
ghost use Rattle.std.specs.Prelude.{◌≡◌, ℕ, List};
ghost use Rattle.ipa_journal.specs.Readings.{Context, IsRefused, ReadsAs};
ghost use Rattle.ipa_journal.specs.declared.journal.Journal.{Journal};

use ipa_text::one_cut;

/// Bytes have one reading at most: one journal, or one line that refuses them.
pub fn one_journal()
    ensures journal { (c : Context) (bytes : List ℕ) (j k : Journal) → ReadsAs c bytes j → ReadsAs c bytes k → j ≡ k }
    ensures line { (c : Context) (bytes : List ℕ) (n m : ℕ) → IsRefused c bytes n → IsRefused c bytes m → n ≡ m }
    ensures apart { (c : Context) (bytes : List ℕ) (j : Journal) (n : ℕ) → ReadsAs c bytes j → IsRefused c bytes n → ⊥ }
{
    one_cut();
}

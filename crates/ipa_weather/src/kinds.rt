//! The words that name a kind of weather.
ghost use Rattle.std.specs.Prelude.{◌≡◌, ◌≢◌, ℕ, ◌<◌, ◌^◌, ◌++◌, MatchOption, codes};
ghost use Rattle.std.specs.Fmt.{decimal};
ghost use Rattle.ipa_weather.specs.declared.kinds.Kind.{Kind as AKind};
ghost use Rattle.ipa_weather.specs.Kinds.{word_of, IsKind, begins_as_number};

/// A kind of weather, as the program's words name it.
#[derive(Clone, Copy, Debug, PartialEq, Eq)]
pub enum Kind {
    /// All frames pass.
    Clear,
    /// Frames are lost, doubled and held by the generator of this number.
    Lossy(u64),
    /// Frames are held from one answer up to another.
    Split(u32, u32),
}

/// The kind of weather that a word names: `clear`, `lossy:NUMBER` or `split:FROM:TO`. `None` exactly where it
/// names none. Takes no memory.
pub fn kind_of(word: &str) -> Option<Kind>
    ensures { MatchOption result ((kind : AKind) → IsKind kind → word.now ≢ word_of kind) (λ kind. word.now ≡ word_of kind) }
{
    if word == "clear" {
        return Some(Kind::Clear);
    }
    if let Some(number) = lossy_number(word) {
        return Some(Kind::Lossy(number));
    }
    let (from, to) = split_numbers(word)?;
    Some(Kind::Split(from, to))
}

/// The number of a lossy weather.
fn lossy_number(word: &str) -> Option<u64>
    ensures { MatchOption result ((n : ℕ) → n < 2 ^ 64 → word.now ≢ codes "lossy:" ++ decimal n) (λ n. word.now ≡ codes "lossy:" ++ decimal n) }
{
    number_of(word.strip_prefix("lossy:")?)
}

/// The bounds of a split weather.
fn split_numbers(word: &str) -> Option<(u32, u32)>
    ensures { MatchOption result ((m n : ℕ) → m < 2 ^ 32 → n < 2 ^ 32 → word.now ≢ codes "split:" ++ (decimal m ++ (codes ":" ++ decimal n))) (λ r. word.now ≡ codes "split:" ++ (decimal r.0 ++ (codes ":" ++ decimal r.1))) }
{
    let (from, to) = word.strip_prefix("split:")?.split_once(':')?;
    Some((short_number_of(from)?, short_number_of(to)?))
}

/// The number of 64 bits that the digits write, in decimal and without a needless zero before it. `None` exactly where
/// they write none. Takes no memory.
pub fn number_of(digits: &str) -> Option<u64>
    ensures { MatchOption result ((n : ℕ) → n < 2 ^ 64 → digits.now ≢ decimal n) (λ n. (n < 2 ^ 64) × (digits.now ≡ decimal n)) }
{
    if !begins_as_number(digits.as_bytes()) {
        return None;
    }
    digits.parse().ok()
}

/// The number of 32 bits that is written so, without a needless zero before it.
fn short_number_of(digits: &str) -> Option<u32>
    ensures { MatchOption result ((n : ℕ) → n < 2 ^ 32 → digits.now ≢ decimal n) (λ n. digits.now ≡ decimal n) }
{
    let number = number_of(digits)?;
    if number <= u64::from(u32::MAX) {
        Some(number as u32)
    } else {
        None
    }
}

/// Whether the first byte is a digit, and is no `0` where another byte follows.
fn begins_as_number(digits: &[u8]) -> bool
    ensures { result ≡ begins_as_number digits.now }
{
    match digits {
        [] => false,
        [only] => only.is_ascii_digit(),
        [first, ..] => first.is_ascii_digit() && *first != b'0',
    }
}

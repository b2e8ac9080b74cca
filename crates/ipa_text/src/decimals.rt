//! Decimal numbers.
ghost use Rattle.std.specs.Prelude.{◌≡◌};
ghost use Rattle.ipa_text.specs.Words.{followed_by, has_no_needless_zero, number_of};

/// What the digits mean, or `None` where they are no number.
pub fn read_number(digits: &[u8]) -> Option<u32>
    ensures { result ≡ number_of digits.now }
{
    if !has_no_needless_zero(digits) {
        return None;
    }
    let mut value: u32 = 0;
    for digit in digits {
        value = followed_by(value, *digit)?;
    }
    Some(value)
}

/// Whether there is a digit, and one more only behind a digit that isn't `0`.
fn has_no_needless_zero(digits: &[u8]) -> bool
    ensures { result ≡ has_no_needless_zero digits.now }
{
    match digits {
        [] => false,
        [_] => true,
        [first, ..] => *first != b'0',
    }
}

/// The number whose digits are those of `value` and then `digit`, where that is a digit and the number fits.
fn followed_by(value: u32, digit: u8) -> Option<u32>
    ensures { result ≡ followed_by value digit }
{
    if !digit.is_ascii_digit() {
        return None;
    }
    value.checked_mul(10)?.checked_add(u32::from(digit - b'0'))
}

//! Names of sorts, predicates, clauses, operations, bounds and variables.
ghost use Rattle.std.specs.Prelude.{◌≡◌, ℕ, ◌≤◌, IsTrue, length, IsSome, IfSome, OnSome, IfNone, ◌↔◌, true, false, take, slice_index, List};
ghost use Rattle.std.specs.List.{list_all};
ghost use Rattle.std.specs.Str.{bytes_eq};
ghost use Rattle.ipa_spec.specs.Names.{is_name, is_name_byte, is_keyword, begins_with_letter};

/// The greatest number of bytes of a name.
pub const LONGEST: usize = 24;

/// A name: a letter and at most 23 more letters, digits or underscores, and none of the words
/// `not`, `or` and `exists`. The first `len` bytes are the name, and zeros follow.
#[derive(Clone, Copy, Debug, PartialEq, Eq, Hash)]
pub struct Name {
    /// The bytes of the name, followed by zeros.
    pub bytes: [u8; 24],
    /// The number of bytes of the name, from 1 to 24.
    pub len: u8,
    ghost full: { length bytes ≡ 24 },
    ghost sized: { len ≤ 24 },
    ghost named: { is_name (take len bytes) ≡ true },
    ghost padded: { (k : ℕ) → len ≤ k → slice_index bytes k ≡ 0 },
}

impl Name {
    /// The name that `bytes` are, or `None` where they are no name.
    pub fn new(bytes: &[u8]) -> Option<Name>
        ensures some { IsSome result ↔ (is_name bytes.now ≡ true) }
        ensures bytes { IfSome result (λ name. take name.len name.bytes ≡ bytes.now) }
    {
        if !is_name(bytes) {
            return None;
        }
        let mut padded = [0; LONGEST];
        for (place, byte) in bytes.iter().enumerate() {
            padded[place] = *byte;
        }
        Some(Name {
            bytes: padded,
            len: bytes.len() as u8,
        })
    }

    /// The bytes of the name, without the zeros that follow.
    pub fn as_bytes(&self) -> &[u8]
        ensures bytes { result.now ≡ take self.now.len self.now.bytes }
        ensures named { is_name result.now ≡ true }
    {
        &self.bytes[..self.len as usize]
    }
}

// Whether the bytes are a name.
#[tactic(auto, unfolding(crate::specs::Names::is_name))]
fn is_name(bytes: &[u8]) -> bool
    ensures value { result ≡ is_name bytes.now }
    ensures short { IsTrue result → length bytes.now ≤ 24 }
{
    begins_with_letter(bytes)
        && has_only_name_bytes(bytes)
        && bytes.len() <= LONGEST
        && !is_keyword(bytes)
}

fn begins_with_letter(bytes: &[u8]) -> bool
    ensures { result ≡ begins_with_letter bytes.now }
{
    match bytes {
        [] => false,
        [first, ..] => first.is_ascii_alphabetic(),
    }
}

fn has_only_name_bytes(bytes: &[u8]) -> bool
    ensures { result ≡ list_all is_name_byte bytes.now }
{
    bytes
        .iter()
        .all(|byte| byte.is_ascii_alphanumeric() || *byte == b'_')
}

fn is_keyword(bytes: &[u8]) -> bool
    ensures { result ≡ is_keyword bytes.now }
{
    bytes == b"not".as_slice() || bytes == b"or".as_slice() || bytes == b"exists".as_slice()
}

//! Laws on lines and tokens. These functions do nothing: what they ensure is the law.
ghost use Rattle.std.specs.Prelude.{◌≡◌, ℕ, ◌^◌, ◌<◌, ◌≤◌, List, Some, map};
ghost use Rattle.std.specs.Fmt.{decimal};
ghost use Rattle.std.specs.List.{filter, All, Contains};
ghost use Rattle.std.specs.List.Sorted.{IsStrictlyIncreasing};
ghost use Rattle.std.specs.Str.Lines.{strip_carriage_return};
ghost use Rattle.ipa_text.specs.Lines.{has_content, last_line, line_text, lines_of, numbered, pieces, IsLine};
ghost use Rattle.ipa_text.specs.Spellings.{bytes_of, ended, tokens_from, AreReadable, HasNoLineFeed, Spelling};
ghost use Rattle.ipa_text.specs.Words.{number_of};
ghost use Rattle.ipa_text.specs.declared.numbering.Line.{Line};
ghost use Rattle.ipa_text.specs.Tokens.{text_of, HasAnswer, IsBadByte, IsCutInto};
ghost use Rattle.ipa_text.specs.declared.tokens.Token.{Token};

/// Each line has one answer: its one cut into tokens, or its one bad byte.
pub fn one_cut()
    ensures answer { (line : List ℕ) → HasAnswer line }
    ensures tokens { (line : List ℕ) (tokens others : List Token) → IsCutInto line tokens → IsCutInto line others → tokens ≡ others }
    ensures bad_byte { (line : List ℕ) (at other : ℕ) → IsBadByte line at → IsBadByte line other → at ≡ other }
    ensures apart { (line : List ℕ) (tokens : List Token) (at : ℕ) → IsCutInto line tokens → IsBadByte line at → ⊥ }
{}

/// The lines of a text are each of its lines that is neither blank nor a comment, in the order of their numbers.
pub fn every_line()
    ensures each { (bytes : List ℕ) → All (IsLine bytes) (lines_of bytes) }
    ensures every { (bytes : List ℕ) (line : Line) → IsLine bytes line → Contains (lines_of bytes) line }
    ensures last { (bytes : List ℕ) (line : Line) → IsLine bytes line → line.number ≤ last_line bytes }
    ensures texts { (bytes : List ℕ) → map (line_text bytes) (lines_of bytes) ≡ filter has_content (map strip_carriage_return (pieces bytes)) }
    ensures in_order { (bytes : List ℕ) → IsStrictlyIncreasing (map (λ line. line.number) (lines_of bytes)) }
{}

/// What is printed of a number below 2^32 is read as that number, and nothing else is.
pub fn one_spelling()
    ensures printed { (n : ℕ) → n < 2 ^ 32 → number_of (decimal n) ≡ Some n }
    ensures read { (digits : List ℕ) (n : ℕ) → number_of digits ≡ Some n → digits ≡ decimal n }
{}

/// A line that is written of readable spellings is cut into just them.
pub fn written_line()
    ensures cut { (spellings : List Spelling) → AreReadable spellings → IsCutInto (bytes_of spellings) (tokens_from 0 spellings) }
    ensures texts { (spellings : List Spelling) → map (text_of (bytes_of spellings)) (tokens_from 0 spellings) ≡ map (λ s. s.text) spellings }
    ensures kinds { (spellings : List Spelling) → map (λ t. t.kind) (tokens_from 0 spellings) ≡ map (λ s. s.kind) spellings }
{}

/// A text of lines that are each ended by a line feed has those lines, numbered from 1.
pub fn written_text()
    ensures lines { (texts : List (List ℕ)) → All HasNoLineFeed texts → lines_of (ended texts) ≡ numbered 1 0 texts }
    ensures texts { (texts : List (List ℕ)) → All HasNoLineFeed texts → map (line_text (ended texts)) (lines_of (ended texts)) ≡ filter has_content (map strip_carriage_return texts) }
{}

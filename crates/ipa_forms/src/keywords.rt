//! The words that lines begin with.
ghost use Rattle.std.specs.Prelude.{◌≡◌};
ghost use Rattle.std.specs.List.{find};
ghost use Rattle.std.specs.Str.{bytes_eq};
ghost use Rattle.ipa_forms.specs.Lines.{keyword_text};

/// The word that a line begins with.
#[derive(Clone, Copy)]
pub(crate) enum Keyword {
    Sort,
    Const,
    Pred,
    Clause,
    Op,
    Need,
    Add,
    Del,
    Bound,
    Drops,
    Elem,
    Base,
    Replicas,
    Session,
    Do,
    Show,
}

const KEYWORDS: [Keyword; 16] = [
    Keyword::Sort,
    Keyword::Const,
    Keyword::Pred,
    Keyword::Clause,
    Keyword::Op,
    Keyword::Need,
    Keyword::Add,
    Keyword::Del,
    Keyword::Bound,
    Keyword::Drops,
    Keyword::Elem,
    Keyword::Base,
    Keyword::Replicas,
    Keyword::Session,
    Keyword::Do,
    Keyword::Show,
];

impl Keyword {
    /// How it is written.
    pub(crate) fn text(self) -> &'static str
        ensures { result.now ≡ keyword_text self }
    {
        match self {
            Keyword::Sort => "sort",
            Keyword::Const => "const",
            Keyword::Pred => "pred",
            Keyword::Clause => "clause",
            Keyword::Op => "op",
            Keyword::Need => "need",
            Keyword::Add => "add",
            Keyword::Del => "del",
            Keyword::Bound => "bound",
            Keyword::Drops => "drops",
            Keyword::Elem => "elem",
            Keyword::Base => "base",
            Keyword::Replicas => "replicas",
            Keyword::Session => "session",
            Keyword::Do => "do",
            Keyword::Show => "show",
        }
    }
}

/// The keyword that is written like this.
pub(crate) fn keyword_of(bytes: &[u8]) -> Option<Keyword>
    ensures { result ≡ find (λ k. bytes_eq (keyword_text k) bytes.now) KEYWORDS }
{
    KEYWORDS
        .iter()
        .copied()
        .find(|keyword| keyword.text().as_bytes() == bytes)
}

//! The words of journals.
ghost use Rattle.std.specs.Prelude.{◌≡◌};
ghost use Rattle.ipa_journal.specs.Pieces.{keyword_text};

/// A word that journals are written with.
#[derive(Clone, Copy)]
pub enum Keyword {
    Journal,
    Sessions,
    Bounds,
    Greatest,
    Youngest,
    /// Stands for an empty list.
    Nothing,
    Tx,
    Cut,
    Do,
    Drop,
    Out,
    Commit,
    Refused,
    Shown,
    Within,
    Need,
    Clause,
    Over,
    Final,
    End,
}

impl Keyword {
    /// How it is written.
    pub(crate) fn text(self) -> &'static str
        ensures { result.now ≡ keyword_text self }
    {
        match self {
            Keyword::Journal => "journal",
            Keyword::Sessions => "sessions",
            Keyword::Bounds => "bounds",
            Keyword::Greatest => "greatest",
            Keyword::Youngest => "youngest",
            Keyword::Nothing => "none",
            Keyword::Tx => "tx",
            Keyword::Cut => "cut",
            Keyword::Do => "do",
            Keyword::Drop => "drop",
            Keyword::Out => "out",
            Keyword::Commit => "commit",
            Keyword::Refused => "refused",
            Keyword::Shown => "shown",
            Keyword::Within => "within",
            Keyword::Need => "need",
            Keyword::Clause => "clause",
            Keyword::Over => "over",
            Keyword::Final => "final",
            Keyword::End => "end",
        }
    }
}

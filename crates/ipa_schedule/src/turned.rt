//! What a run answers to a call for its next turn.

/// What a run answers to a call for its next turn.
#[derive(Clone, Copy, Debug, PartialEq, Eq)]
pub enum Turned {
    /// The turn was taken.
    More,
    /// No turn is left before the settling.
    Ended,
}

//! Why a transaction is not legal.
use ipa_logic::Broken;

/// The first reason why a transaction is not legal.
#[derive(Clone, Copy, PartialEq, Eq)]
pub enum Reason {
    /// The state at its cut is over this bound.
    NotWithin(u8),
    /// This need of it fails there.
    Need(u8),
    /// The state after it breaks this instance.
    Clause(Broken),
    /// The state after it is over this bound.
    Over(u8),
    /// The drop is not the one that is due.
    NotTheDrop,
}

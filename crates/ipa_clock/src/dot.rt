//! The name of a transaction.

/// The name of a transaction: its origin, below 16, and its number among those of its origin, from 1.
#[derive(Clone, Copy, Debug, PartialEq, Eq)]
pub struct Dot {
    /// Who made it.
    pub origin: u8,
    /// The how manieth of its origin it is.
    pub number: u32,
}

//! Single changes of a specification, and offers of one or two of them.
use ipa_spec::{Effect, List};

/// A single change of a specification.
#[derive(Clone, Copy, Debug)]
pub enum Candidate {
    /// An operation does one more effect, after those that it has.
    Adds {
        /// The number of the operation.
        op: u8,
        /// The effect, over the operation's parameters and the constants.
        effect: Effect,
    },
    /// A predicate takes the other rule.
    Flips {
        /// The number of the predicate.
        predicate: u8,
    },
}

/// Changes that are made together.
#[derive(Clone, Debug, Drop)]
pub struct Offer {
    /// One change or two, in the order in which they are made.
    pub parts: List<Candidate>,
}

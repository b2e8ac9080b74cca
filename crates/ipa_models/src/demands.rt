//! What is asked of a state beside its clauses.
use ipa_logic::Fact;

/// A fact that a state has to hold, or not to hold.
#[derive(Clone, Copy)]
pub struct Demand {
    /// The fact.
    pub fact: Fact,
    /// Whether it has to be true.
    pub holds: bool,
}

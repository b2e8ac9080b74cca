//! What stands before a line.
use crate::names::Names;
use crate::order::Place;
use crate::sessions::SessionWork;
use ipa_logic::Fact;
use ipa_names::Declared;
use ipa_spec::List;

/// What the setup lines say, by numbers of what is declared before them.
#[derive(Drop)]
pub struct Arranged {
    /// The elements of each sort.
    pub elements: List<Names>,
    /// The facts that `base` lines make true, in their order.
    pub facts: List<Fact>,
    /// The number of replicas.
    pub replicas: u32,
    /// The sessions, in order.
    pub sessions: List<SessionWork>,
}

/// What the lines before a line declare and say, and which kinds of lines they are.
#[derive(Drop)]
pub struct Standing {
    /// What the order of lines depends on.
    pub place: Place,
    /// What the specification lines declare.
    pub declared: Declared,
    /// What the setup lines say.
    pub arranged: Arranged,
}

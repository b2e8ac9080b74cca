//! What sessions were answered, and how a run of replicas ended.
use crate::answers::Answer;
use crate::history::History;
use ipa_clock::Cut;
use ipa_logic::State;
use ipa_spec::List;

/// What a session was answered, and the cut that it had read then.
#[derive(Drop)]
pub struct Outcome {
    /// What the session had seen.
    pub cut: Cut,
    /// What its request was answered.
    pub answer: Answer,
}

/// What becomes of a frame on its way.
#[derive(Clone, Copy, Debug, PartialEq, Eq)]
pub enum Fate {
    /// It arrives.
    Pass,
    /// It is lost.
    Lose,
    /// It arrives twice.
    Twice,
    /// It arrives after later ones.
    Hold,
}

/// How a simulated run ended.
#[derive(Drop)]
pub struct SimEnd {
    /// The transactions of all replicas.
    pub entries: History,
    /// The outcomes of each session, in the order of its requests.
    pub outcomes: List<List<Outcome>>,
    /// The fates that were given on each link, in order.
    pub fates: List<List<Fate>>,
    /// The facts that are true where all transactions are known.
    pub last: State,
}

//! What a session decides.
use ipa_history::{Reason, Tx};
use ipa_logic::State;

/// What a session decides on a request.
#[derive(Drop)]
pub enum Decision {
    /// This transaction is to be committed.
    Commit(Tx),
    /// The operation would not be legal, for this first reason.
    Refused(Reason),
    /// The true facts that were asked for.
    Shown(State),
}

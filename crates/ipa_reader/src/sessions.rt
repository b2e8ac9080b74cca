//! What sessions are to do.
use ipa_logic::Request;
use ipa_spec::List;

/// What a session is to do, at the replica of this number, counted from 0.
#[derive(Drop)]
pub struct SessionWork {
    /// The session's replica.
    pub replica: u8,
    /// Its requests, in order.
    pub requests: List<Request>,
}

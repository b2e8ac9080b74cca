//! Sessions: an origin that acts on what it has seen, and on nothing else.
//!
//! A [`Session`] has seen a legal history of its setting. It pulls what a log has beyond it ([`Session::pull`]), all of
//! it or nothing; it says which drop is due there ([`Session::next_drop`]); and once none is due, it decides requests
//! ([`Session::decide`]) exactly as the plain answer at its own cut does, whatever other replicas have. Its decisions
//! are transactions that it keeps ([`Session::keep`]) and that a log takes.
#![tactic(auto)]

mod calm;
mod deciding;
mod decision;
mod pulling;
mod session;

pub use decision::Decision;
pub use session::Session;

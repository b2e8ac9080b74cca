//! When a run can meet a log without room.
//!
//! A log has room for 65536 entries. Each operation in it is the commit of one request, and the drops of a session are no
//! more than the facts of the base and the adds of the operations. So only a large document has a run that meets a log
//! without room: one whose sessions, requests and base could make more entries than that.
//!
//! Each function computes nothing: its contract is the law.
#![tactic(auto)]

mod laws;

pub use laws::{law_entries_are_few, law_full_is_large, law_full_run_is_large};

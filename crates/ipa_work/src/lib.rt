//! The generated workload: a document that a number determines, for measures and for long runs.
//!
//! [`generate`] gives the text of the tournament with some players, cups, replicas and sessions, whose 100 requests
//! each are drawn by a generator of numbers. `workload` of `specs/Workloads.antt` is the text.
#![tactic(auto)]

mod tournament;
mod workload;

pub use workload::generate;

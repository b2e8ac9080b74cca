//! The commands that run the schedule of a document.
//!
//! [`simulate_command`] reads a document, runs its schedule and writes the run's journal. [`generate_command`] makes the
//! document of a number, runs its schedule and writes what was done in it. Both answer a [`SimAnswer`]: the status, and
//! beside it the end of the run, or the fates that were given until a log was without room, so that a caller sees for
//! which fates of the links the text is the run's. What they say of an input is `RunVerdict` of
//! `specs/RunVerdicts.antt`: the first cases of every verdict, and then the run. For what is handed back there is one
//! verdict (`one_run_verdict`).
//!
//! ```
//! let answer = simulate_command(rt, alloc, 0, &mut weathers, &mut source, &mut sink);
//! ```
#![tactic(auto)]

mod generating;
mod runs;
mod simulated;
mod simulating;
mod telling;
mod verdict_laws;

pub use generating::generate_command;
pub use simulated::SimAnswer;
pub use simulating::simulate_command;
pub use telling::Telling;
pub use verdict_laws::one_run_verdict;

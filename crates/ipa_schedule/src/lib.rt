//! Schedules: runs of a world by a number and by the weathers of its links, which end when all is settled.
//!
//! A schedule goes from turn to turn: a session pulls, makes the drops that are due, and its next request is answered; or
//! what one replica has goes over a link to another. [`run_schedule`] runs the schedule of a number to its end, and a
//! [`Run`] goes a turn at a time, so that weathers can be replaced between turns, and a turn that wanted memory can be
//! left behind. Both stand on the same turns, which are those of the definition. By [`laws`] the world stays lawful
//! whatever the turns are, and a settled run without a request left has a lawful end.
//!
//! ```
//! let mut world = World::new(alloc, setting, &setup)?;
//! match run_schedule(&mut world, number, &mut weathers) {
//!     Ok(end) => ..,
//!     Err(SimFault::Full { fates }) => ..,
//!     Err(SimFault::NoMemory) => ..,
//! }
//! ```
#![tactic(auto)]

mod asking;
mod draws;
mod exchanges;
pub mod laws;
mod links;
mod plan;
mod playing;
mod progress;
mod round;
mod running;
mod runs;
mod sending;
mod sessions;
mod settling;
mod turned;
mod turning;
mod turns;

pub use running::{SimFault, run_schedule};
pub use runs::Run;
pub use turned::Turned;
pub use turns::Turn;

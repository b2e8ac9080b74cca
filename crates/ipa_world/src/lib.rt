//! Worlds: replicas with a log each, sessions that act at one of them, and links between the replicas, as one machine
//! whose steps are taken one after the other.
//!
//! A [`World`] begins where nothing has happened ([`World::new`]), and [`World::step`] takes one [`Step`]: a session
//! pulls what its replica's log has, or acts; an entry of one log is given to another replica; a sender hears what a
//! receiver has. Whatever the steps are, and in whatever order, the world stays lawful, by its type: each log and what
//! each session has seen are legal histories that never disagree, and each outcome is its request's answer at its cut.
//!
//! ```
//! let mut world = World::new(alloc, setting, &setup)?;
//! world.step(&Step::Act { session: 0 })?;
//! world.step(&Step::Deliver { from: 0, to: 1, place: 0 })?;
//! ```
#![tactic(auto)]

mod ending;
mod giving;
pub mod laws;
mod receiving;
mod seats;
mod stepping;
mod steps;
mod world;

pub use laws::law_world_is_lawful;
pub use steps::{Step, WorldFault};
pub use world::World;

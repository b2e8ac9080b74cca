//! The first instance of a clause that an action breaks, found among the instances that it touches.
//!
//! An effect turns a literal false where it removes the literal's fact, or adds the fact that the literal
//! denies. Where the state before keeps all clauses, an instance that is not true after the action has a
//! literal that one of the effects turns false: touched instances suffice (`laws`). So for each literal and each
//! effect `first_broken` goes through the instances that this effect fixes, and takes the first by clause and
//! then by values. A variable that stays free has the elements with which a denied fact of the clause is true,
//! which the view is asked for, or all elements where there is no such fact. That this is the first broken
//! instance of all, and `None` exactly where the state after keeps all clauses, is its contract. It builds
//! no state and takes no memory.
//!
//! ```
//! let broken = first_broken(&spec, &universe, &state, Action::Op(0), &args);
//! ```
#![tactic(auto)]

mod broken;
mod known;
pub mod laws;
mod leaps;
mod pins;
mod search;
mod settled;
mod step;

pub use broken::first_broken;

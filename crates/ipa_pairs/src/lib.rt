//! Which operations can break an invariant together.
//!
//! `analyse` answers the first example of each triple of two actions and a clause in conflict, and
//! of each drop that can break a clause. `accept` takes a specification that has none, and
//! `Accepted` is acceptance by its type.
#![tactic(auto)]

mod accepting;
mod actions;
mod analysing;
mod analysis;
mod arguments;
mod asking;
mod breaking;
mod cases;
mod collecting;
mod constants;
mod drops;
mod fitting;
mod gathering;
mod groundings;
mod hiding;
mod laws;
mod parts;
mod search;
mod sorts;
mod triples;
mod width;

pub use accepting::{Accepted, accept, accepted_actions_do_not_conflict};
pub use analysing::{analyse, analyse_pair};
pub use analysis::{AcceptFault, Analysis, Conflict, PairFault, UnsafeDrop};
pub use laws::{one_analysis, one_refusal};
pub use search::Search;

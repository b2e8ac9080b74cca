//! Documents for tests and programs that measure, and what is printed of them where it was worked out by hand.
//!
//! A `Sample` names one. `document_of` and `spec_of` read it, and `fact` and `holding` make facts and states to go
//! with it. Nothing of this is part of the program.
//!
//! ```
//! let spec = spec_of(alloc, Sample::ExclusiveCup)?;
//! let state = holding(alloc, &[fact(0, [0, 0, 0])])?;
//! ```
#![tactic(auto)]

mod admins;
mod cups;
mod enrolments;
mod reading;
mod samples;
mod small;
mod states;
mod thin;
mod tournament;

pub use reading::{SampleFault, document_of, page_of, spec_of};
pub use samples::Sample;
pub use states::{fact, holding};

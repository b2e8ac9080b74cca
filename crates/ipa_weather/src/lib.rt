#![tactic(auto)]
//! What becomes of the frames that a link carries: some are lost, doubled or held until later ones have passed.
//!
//! A [`Weather`] answers a fate each time that it is asked, and contracts see the fates that it is due to give.
//! [`pass_all`] asks it once a frame, in order: a frame arrives once, not at all, or twice in a row, or it is held,
//! and what was held before the batch arrives after it. So what arrives follows from the fates alone, and the fates
//! are those that the weather was due to give. [`Clear`], [`Lossy`], [`Script`] and [`Split`] are weathers, and
//! [`kind_of`] reads the word that names one.
//!
//! ```
//! let mut weather: Box<dyn Weather + Send> = Box::new(alloc, Lossy::new(7, link))?;
//! let arrived = pass_all(alloc, &mut weather, frames, &mut held)?;
//! ```

mod arrivals;
mod clear;
mod kinds;
mod lossy;
mod script;
mod split;
mod weather;

pub use arrivals::{Arrived, pass_all, pass_one};
pub use clear::Clear;
pub use kinds::{Kind, kind_of, number_of};
pub use lossy::Lossy;
pub use script::Script;
pub use split::Split;
pub use weather::Weather;

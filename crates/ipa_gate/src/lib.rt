#![tactic(auto)]
//! Logs: legal histories by their type, which take transactions one after the other.
//!
//! A `Setting` is an accepted specification with a universe, a base and a number of sessions. A `Log` of it is a
//! legal history, whatever was offered to it: `offer` appends a transaction that is new and legal at its own cut, knows
//! one that it has, and refuses every other, by the first `OfferFault` that holds. A transaction is judged at its own
//! cut alone, so two logs may take the same transactions in different orders. `admit` is an offer of a transaction that
//! is known to be legal, which is not judged again. `test` answers what `offer` would, and makes the log ready, so that
//! the offer takes no memory. `agrees`, `news` and `beyond` tell what the log has that others lack. `is_calm_at` tells
//! whether the bounds hold at a cut, mostly in a time that does not grow with the number of true facts. By
//! `law_log_keeps` every closed cut of a log keeps all clauses.
//!
//! ```
//! let mut log = Log::new(alloc, setting);
//! match log.offer(tx) {
//!     Ok(Taken::New) => ..,
//!     Err(OfferFault::Gap { origin, have, need }) => ..,
//! }
//! ```

mod answers;
mod calm;
mod cuts;
mod entries;
mod laws;
mod log;
mod offers;
mod pulls;
mod setting;
mod shapes;
mod verdicts;

pub use answers::{Diverged, OfferFault, PullFault, Taken};
pub use calm::is_calm_at;
pub use laws::{law_drops_are_few, law_equal_cuts, law_log_keeps};
pub use log::Log;
pub use setting::Setting;
pub use shapes::argument_count;
pub use verdicts::{reason_at, reason_within};

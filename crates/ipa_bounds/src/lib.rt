//! Bounds on the sizes of groups: whether a state is within them, and the drop that is due where it is not.
//!
//! A bound counts one place of a predicate. A group is the true facts of the predicate that agree in all
//! other places, which are its key. `within` says whether no group has more facts than its bound allows.
//! `first_drop` is the due drop: of the first bound, in declared order, that a group exceeds, the group of
//! least key, and the fact of it that the bound picks, its greatest or its youngest. How young facts are is
//! asked of the view, an `AgedView`; in a `State` all facts are of one age. `first_over` is the first bound
//! that a group exceeds after an action, judged without building the state after: its facts are asked of the
//! view and of the action's effects. The choice of the bound and the group stands apart from the choice of the
//! fact. `key_of` and `exceeds` judge one group, for those who know which groups may have grown. Nothing here takes
//! memory.
//!
//! ```
//! if let Some(drop) = first_drop(&spec, &state) {
//!     // drop.fact is to go, by Action::Drop(drop.bound)
//! }
//! let refused = first_over(&spec, &state, Action::Op(0), &args);
//! ```
#![tactic(auto)]

mod ages;
mod drops;
mod groups;
mod members;
mod over;
mod picks;
mod runs;

pub use ages::AgedView;
pub use drops::{DropOf, first_drop, within};
pub use groups::{exceeds, key_of};
pub use ipa_logic::Age;
pub use over::first_over;

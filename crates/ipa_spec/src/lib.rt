#![tactic(auto)]
//! The specification of a replicated application, and the test that it has no fault.
//!
//! An application declares the sorts of its elements, constants of them, predicates over them, clauses that are to
//! hold in every state, the operations that replicas accept, and bounds on the sizes of groups of
//! facts. A `Name` names a part. A `List` holds parts in declared order, and contracts see it as
//! the list of its items; the number of a part is its place there, from 0. An `Action` is what a
//! transaction does: an operation, or the drop of a fact that a bound counts.
//!
//! `Spec::new` takes the parts and answers a `Spec` exactly where they have none of the seven
//! faults of `SpecFault`, and else the first of them. So in a `Spec` each number names something,
//! each variable stands in places of its own sort, and each count is within its limit.
//!
//! ```
//! let mut sorts = List::new(alloc);
//! sorts.push(Name::new(b"cup").ok_or("no name")?)?;
//! let spec = Spec::new(sorts, constants, predicates, clauses, operations, bounds)?;
//! ```

mod bounds;
mod clauses;
mod constants;
mod faultless;
mod faults;
pub mod laws;
mod lists;
mod names;
mod operations;
mod predicates;
mod specification;

pub use bounds::{Bound, Pick};
pub use clauses::{Atom, Clause, Literal};
pub use constants::{Constant, Term};
pub use faultless::Spec;
pub use faults::SpecFault;
pub use lists::List;
pub use names::Name;
pub use operations::{Action, Arg, Effect, Operation};
pub use predicates::{Predicate, Rule, Var};

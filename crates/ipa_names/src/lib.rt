//! What the specification lines of a document declare, by names, and the specification that they
//! mean, by numbers. Each name has the number of its first declaration, counted from 0.
//!
//! A line is judged by what the lines before it declare: it may have a flaw of one of six kinds, or
//! pass one of the limits. Lines of which none has a flaw or passes a limit declare a specification
//! without a fault.
//!
//! ```
//! let mut declared = nothing_declared(alloc);
//! // for each line, where neither `specification_line_has` nor `limit_passed` finds anything:
//! declared = with_declaration(alloc, declared, line)?;
//! let spec = specification_of(alloc, declared)?;
//! ```
#![tactic(auto)]

mod bounding;
mod constants;
mod declared;
mod declaring;
mod flaws;
mod judging;
mod laws;
mod naming;
mod numbering;
mod scopes;
mod specification;
mod variables;

pub use declared::{BoundLines, ClauseLine, Declared, EffectLine, OperationLines, PredicateLine};
pub use declaring::{ending_with, nothing_declared, with_declaration};
pub use flaws::{Flaw, arity_named, sort_has, use_has};
pub use judging::{limit_passed, specification_line_has};
pub use laws::is_faultless;
pub use naming::{equal_names, is_among, number_in, number_or_count, same_name, stands_twice};
pub use numbering::predicate_number;
pub use scopes::{operation_named, places_of};
pub use specification::specification_of;

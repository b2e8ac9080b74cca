#![tactic(auto)]
//! Values that stand for histories, and answer as the states at their cuts do: the facts of a whole cut, and an index to
//! be asked at any cut.
//!
//! `Facts` stands for one history and is kept up to date: it is a view of the state at the history's whole cut, with
//! the age of each true fact. Per fact it keeps the last transaction of each origin that adds it, and per pattern of
//! removes the last of each origin that removes by it: an earlier effect of the same origin is before a later one, so
//! these are enough to know which effects are maximal. A remove with a `*` is one entry, whatever it matches, and it
//! tells of facts that are added only later too. Whether a fact is true is kept beside it once a transaction adds it,
//! and told anew only where a later one concerns it, so a question is a search in the known facts. Room is taken first:
//! with room for one more transaction, taking it takes no memory.
//!
//! `Index` stands for a history too, keeps its transactions, and is asked at any cut: `at` lends a view of the state
//! there, over a base, with the ages, and takes no memory. It files the number of each transaction under the keys of
//! its effects, by origin and in order, so that the last effect of each origin within a cut is found by binary search.
//!
//! ```
//! let mut facts = Facts::new(alloc, &spec, base);
//! facts.take(&spec, &tx)?;
//! facts.holds(&fact)
//!
//! let mut index = Index::new(alloc);
//! index.take(&spec, &tx)?;
//! index.at(&base, &tx.cut).holds(&fact)
//! ```

mod at_cut;
mod by_origin;
mod facts;
mod filings;
mod fitting;
mod found_lasts;
mod index;
mod indexing;
mod judge;
mod keys;
mod known;
mod lasts;
pub mod laws;
mod listing;
mod numbers;
mod patterns;
mod rows;
mod shapes;
mod taking;
mod truths;

pub use at_cut::AtCut;
pub use facts::Facts;
pub use index::Index;

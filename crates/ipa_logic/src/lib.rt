#![tactic(auto)]
//! What a specification says of states: which instances of its clauses are true, and what an
//! action does to a fact. A `Fact` is a predicate with elements in its places, and a `Universe`
//! says how many elements each sort has. A `State` is the set of its true facts, in order; a `View`
//! is whatever stands for a state and can be asked for its facts. `keeps` answers the first
//! instance that is not true, by clause and then by values, exactly where the state breaks a clause
//! over the universe. `effect_on` answers the `Touch` of an action on a fact, where an add prevails
//! over a remove of the same action. After `apply_plain` a fact is true exactly where an effect of
//! the action adds it, or it was true and no effect removes it. `After` is a view of the same state, which
//! takes no memory. Only want of memory is refused.
//!
//! ```
//! let mut state = State::new(alloc);
//! state.insert(Fact { predicate: 1, args: [0, 2, 0] })?;
//! let after = apply_plain(alloc, &spec, Action::Op(0), &[0, 2, 0, 0], &state)?;
//! if let Some(broken) = keeps(&spec, &universe, &after) { .. }
//! ```

mod actions;
mod added;
mod after;
mod application;
mod effects;
mod facts;
mod keeping;
mod literals;
mod needs;
mod ranges;
mod state;
mod touching;
mod view;
mod walks;

pub use actions::{argument_sort, drop_args, effect_at, is_action};
pub use after::After;
pub use application::apply_plain;
pub use effects::{drop_effect, effect_on, fact_given};
pub use facts::{Age, Broken, Fact, Request, Touch, Universe};
pub use keeping::{keeps, size_of};
pub use literals::{
    arity_of, element_of, element_of_constant, fact_of, has_same_value, holds_instance,
    holds_literal, value_at,
};
pub use needs::{first_failing_need, needs_of};
pub use state::State;
pub use touching::{
    can_be_falsified, can_break, falsifies_some, is_live, is_undecided, loses, makes_false,
    makes_true, makes_winner_true, wins,
};
pub use view::View;
pub use walks::{TrueFacts, true_facts, true_facts_after};

//! Whether a fact is true, by the rows of what touches it.
use crate::lasts::value_by_lasts;
use crate::listing::Test;
use crate::rows::Rows;
use ipa_logic::{Fact, State, View};

/// What tells the truth of a fact.
#[derive(Drop)]
pub(crate) struct Judge<'a> {
    /// For each predicate whether an add prevails over a concurrent remove.
    pub adds_win: &'a [bool; 256],
    /// The facts that are true where no transaction touches them.
    pub base: &'a State,
    /// The last transactions that touch them.
    pub rows: &'a Rows,
}

impl<'a> Test for Judge<'a> {
    ghost use Rattle.ipa_sets.specs.Fitting.{truth_in};

    ghost passes = { λ j f. truth_in j.adds_win.now j.base.now j.rows.now f };

    fn passes(&self, fact: &Fact) -> bool {
        value_by_lasts(
            self.adds_win[usize::from(fact.predicate)],
            self.base.holds(fact),
            &self.rows.lasts_on(fact),
        )
    }
}

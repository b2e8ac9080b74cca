//! The set of facts of one history, kept up to date.
ghost use Rattle.std.specs.Prelude.{◌≡◌, ◌+◌, ◌*◌, ◌≤◌, ◌<◌, ◌++◌, ◌∷◌, [], ℕ, List, map, IsOk, OnOk, OnErr, IfOk, true, false, slice_index_or};
ghost use Rattle.ipa_logic.specs.Facts.{fact_cmp, has, IsRising};
ghost use Rattle.ipa_logic.specs.Touches.{has_rule, is_add_wins};
ghost use Rattle.ipa_logic.specs.declared.facts.Fact.{Fact as TheFact};
ghost use Rattle.ipa_history.specs.Histories.{IsHistory};
ghost use Rattle.ipa_history.specs.declared.history.Tx.{Tx as TheTx};
ghost use Rattle.ipa_spec.specs.declared.specification.Specification.{Specification};
ghost use Rattle.ipa_sets.specs.Fitting.{truth_in};
ghost use Rattle.ipa_sets.specs.Lasts.{age_by_lasts};
ghost use Rattle.std.proofs.lemmas.Map.Keys.{IsStrictlySortedBy-prop};
ghost use Rattle.ipa_sets.specs.Rows.{spare};

use crate::judge::Judge;
use crate::known::Known;
use crate::lasts::{Last, age_by_lasts};
use crate::listing::{Test, insert_passing, next_listed};
use crate::rows::Rows;
use ipa_bounds::AgedView;
use ipa_history::Tx;
use ipa_logic::{Age, Fact, State, View};
use ipa_spec::laws::spec_is_fit;
use ipa_spec::{Rule, Spec};
use std::alloc::{AllocError, Global};

/// The set of facts of a history: a view of the state at its whole cut, with the age of each true fact.
#[derive(Drop)]
pub struct Facts {
    // The memory that it grows in.
    alloc: Global,
    // The facts that are true where no transaction touches them.
    base: State,
    // For each predicate whether an add prevails over a concurrent remove.
    adds_win: [bool; 256],
    // The facts that some transaction adds, and maybe others, and whether they are true.
    known: Known,
    // For each key of an effect and each origin the last transaction that has it.
    rows: Rows,
    ghost rising: { IsRising base } by { IsStrictlySortedBy-prop fact_cmp base },
    ghost told: { known.truths.items ≡ map (truth_in adds_win base rows) known.facts.items },
}

impl Facts {
    ghost use Rattle.ipa_sets.specs.FactSets.{lasts_on, truth_of, true_facts, IsFactsOf, HasRoom, IsReadyFor};

    /// The set of the history without transactions over the base. It takes no memory, and grows in that of `alloc`.
    pub fn new(alloc: Global, spec: &Spec, base: State) -> Facts
        ensures { IsFactsOf spec.now base [] result }
    {
        stands_in_order(&base);
        Facts {
            alloc,
            base,
            adds_win: adds_win(spec),
            known: Known::new(alloc),
            rows: Rows::new(alloc),
        }
    }

    /// Takes room for one more transaction, whichever it is. The set stands for the same, also where memory is wanting.
    pub fn reserve(&mut self) -> Result<(), AllocError>
        ensures room { OnOk result (HasRoom 1 self.new) }
        ensures same { (s : Specification) (base : List TheFact) (taken : List TheTx) →
            IsFactsOf s base taken self.old → IsFactsOf s base taken self.new }
        ensures kept { (n : ℕ) → HasRoom n self.old → HasRoom n self.new }
        ensures ready { HasRoom 1 self.old → IsOk result }
    {
        self.known.reserve(12)?;
        self.rows.reserve(24)?;
        Ok(())
    }

    /// Makes the set ready for a transaction, whichever come before it: taking it takes no memory then. The set stands
    /// for the same, and stays ready for what it was ready for, also where memory is wanting.
    pub fn prepare(&mut self, spec: &Spec, tx: &Tx) -> Result<(), AllocError>
        ensures ready { OnOk result (IsReadyFor spec.now tx.now self.new) }
        ensures same { (s : Specification) (base : List TheFact) (taken : List TheTx) →
            IsFactsOf s base taken self.old → IsFactsOf s base taken self.new }
        ensures kept { (u : TheTx) → IsReadyFor spec.now u self.old → IsReadyFor spec.now u self.new }
        ensures again { IsReadyFor spec.now tx.now self.old → IsOk result }
        ensures room { (n : ℕ) → HasRoom (n + 1) self.old → IsOk result × HasRoom n self.new }
        ensures spare { spare self.old.rows ≤ spare self.new.rows + 12 }
    {
        let judge = Judge {
            adds_win: &self.adds_win,
            base: &self.base,
            rows: &self.rows,
        };
        self.known.insert_added(spec, tx, &judge)?;
        self.rows.make_rows(spec, tx)?;
        Ok(())
    }

    /// Takes the next transaction of the history. Want of memory leaves the set as it was, and there is none with room
    /// for the transaction, or where the set is ready for it. The set stays ready for what it was ready for.
    pub fn take(&mut self, spec: &Spec, tx: &Tx) -> Result<(), AllocError>
        ensures taken { (base : List TheFact) (taken : List TheTx) → IsFactsOf spec.now base taken self.old →
            IsHistory (taken ++ tx.now ∷ []) → OnOk result (IsFactsOf spec.now base (taken ++ tx.now ∷ []) self.new) }
        ensures refused { (base : List TheFact) (taken : List TheTx) → IsFactsOf spec.now base taken self.old →
            OnErr result (IsFactsOf spec.now base taken self.new) }
        ensures room { (n : ℕ) → HasRoom (n + 1) self.old → IsOk result × HasRoom n self.new }
        ensures ready { IsReadyFor spec.now tx.now self.old → IsOk result }
        ensures kept { (u : TheTx) → IsReadyFor spec.now u self.old → IsReadyFor spec.now u self.new }
    {
        self.prepare(spec, tx)?;
        if tx.dot.origin >= 16 {
            return Ok(());
        }
        self.rows.put_effects(spec, tx)?;
        let judge = Judge {
            adds_win: &self.adds_win,
            base: &self.base,
            rows: &self.rows,
        };
        self.known.tell_concerned(spec, tx, &judge);
        Ok(())
    }

    /// The state: the true facts, in order.
    pub fn state(&self) -> Result<State, AllocError>
        ensures { IfOk result (λ state. state ≡ true_facts self.now) }
    {
        stands_in_order(&self.base);
        let mut state = State::new(self.alloc);
        insert_passing(&mut state, self, self.base.to_vec(self.alloc)?.as_slice())?;
        insert_passing(&mut state, self, self.known.as_slice())?;
        Ok(state)
    }

    // Whether the fact is true by its rows.
    fn is_true_by_rows(&self, fact: &Fact) -> bool
        ensures { result ≡ truth_of self.now fact.now }
    {
        let judge = Judge {
            adds_win: &self.adds_win,
            base: &self.base,
            rows: &self.rows,
        };
        judge.passes(fact)
    }

    // The last effect of each origin on the fact.
    fn lasts_on(&self, fact: &Fact) -> [Option<Last>; 16]
        ensures { result ≡ lasts_on self.now fact.now }
    {
        self.rows.lasts_on(fact)
    }
}

// The facts of a state stand in order.
pub(crate) fn stands_in_order(state: &State)
    ensures { IsRising state.now }
{
    let _first = state.next_true(0, None);
}

// For each predicate whether an add prevails over a concurrent remove.
pub(crate) fn adds_win(spec: &Spec) -> [bool; 256]
    ensures { (p : ℕ) → slice_index_or result p false ≡ has_rule is_add_wins spec.now p }
{
    spec_is_fit(spec);
    let mut adds_win = [false; 256];
    for number in 0..256usize {
        adds_win[number] = is_add_wins(spec, number);
    }
    adds_win
}

// Whether an add on the predicate prevails over a concurrent remove.
fn is_add_wins(spec: &Spec, predicate: usize) -> bool
    ensures { result ≡ has_rule is_add_wins spec.now predicate }
{
    match spec.predicates().get(predicate) {
        Some(predicate) => predicate.rule == Rule::AddWins,
        None => false,
    }
}

impl Test for Facts {
    ghost use Rattle.ipa_sets.specs.FactSets.{truth_of};

    ghost passes = { truth_of };

    fn passes(&self, fact: &Fact) -> bool {
        match self.known.truth(fact) {
            Some(truth) => truth,
            None => self.is_true_by_rows(fact),
        }
    }
}

impl View for Facts {
    ghost use Rattle.ipa_sets.specs.FactSets.{true_facts};

    ghost facts = { true_facts };

    fn holds(&self, fact: &Fact) -> bool {
        match self.known.truth(fact) {
            Some(truth) => truth,
            None => self.base.holds(fact) && self.is_true_by_rows(fact),
        }
    }

    fn next_true(&self, predicate: u8, after: Option<Fact>) -> Option<Fact> {
        next_listed(self, &self.base, &self.known, predicate, after)
    }
}

impl AgedView for Facts {
    ghost use Rattle.ipa_sets.specs.FactSets.{lasts_on};

    ghost ages = { λ v f. age_by_lasts (lasts_on v f) };

    fn age(&self, fact: &Fact) -> Age {
        age_by_lasts(&self.lasts_on(fact))
    }
}

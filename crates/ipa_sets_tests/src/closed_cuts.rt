//! Histories with wildcards and both rules: the index at every closed cut, and the set of facts, show what the plain
//! state has.
ghost use Rattle.ipa_sets.specs.Indexes.{IsIndexOf};

use ipa_clock::{Cut, Dot};
use ipa_history::{Tx, state_at_plain};
use ipa_logic::{State, View, true_facts};
use ipa_samples::{Sample, fact, holding, spec_of};
use ipa_sets::{Facts, Index};
use ipa_spec::{Action, Spec};
use std::alloc::Global;
use std::test::Fail;

/// How many transactions of each of the first six origins.
type Counts = [u32; 6];

/// What was seen, the operation, the player and the cup, by origin: two adds, each removed by one who did not see the
/// other, and two enrolments that each saw one of the removals.
const MADE: [(Counts, u8, [u16; 2]); 6] = [
    ([0, 0, 0, 0, 0, 0], 0, [0, 0]),
    ([0, 0, 0, 0, 0, 0], 0, [0, 0]),
    ([1, 0, 0, 0, 0, 0], 1, [0, 0]),
    ([0, 1, 0, 0, 0, 0], 1, [0, 0]),
    ([1, 1, 0, 1, 0, 0], 2, [0, 0]),
    ([1, 1, 1, 0, 0, 0], 2, [0, 1]),
];

fn cut_of(seen: Counts) -> Cut {
    let mut cut = Cut::empty();
    for origin in 0..6 {
        cut.counts[origin] = seen[origin];
    }
    cut
}

/// The first transaction of an origin.
fn tx_of(origin: usize) -> Option<Tx> {
    let (seen, operation, names) = MADE.get(origin)?;
    let cup = if *operation == 2 { names[1] } else { 0 };
    Some(Tx {
        dot: Dot {
            origin: origin as u8,
            number: 1,
        },
        cut: cut_of(*seen),
        action: Action::Op(*operation),
        args: [names[0], cup, 0, 0],
        count: if *operation == 2 { 2 } else { 1 },
    })
}

/// The index takes the transaction, which follows.
fn append(index: &mut Index, spec: &Spec, tx: &Tx) -> Result<(), Fail>
    requires { IsIndexOf spec.now index.old }
    ensures { IsIndexOf spec.now index.new }
{
    let seen = index.history();
    let _formed = seen.as_slice();
    if !seen.can_follow(tx) {
        return Err("this does not follow".into());
    }
    index.take(spec, tx)?;
    Ok(())
}

/// Whether the view has just the facts of the state, of both predicates.
fn shows<V: View>(alloc: Global, view: &V, state: &State) -> Result<bool, Fail> {
    let mut shown = State::new(alloc);
    for predicate in 0..2u8 {
        for fact in true_facts(view, predicate) {
            if !view.holds(&fact) {
                return Ok(false);
            }
            shown.insert(fact)?;
        }
    }
    Ok(shown.to_vec(alloc)?.as_slice() == state.to_vec(alloc)?.as_slice())
}

/// Whether the index shows the plain state at the cut, if that is closed.
fn agrees_at(
    alloc: Global,
    spec: &Spec,
    base: &State,
    index: &Index,
    cut: &Cut,
) -> Result<bool, Fail> {
    if !index.history().is_closed(cut) {
        return Ok(true);
    }
    let plain = state_at_plain(alloc, spec, base, index.history(), cut)?;
    shows(alloc, &index.at(base, cut), &plain)
}

/// The cut of a number from 0 to 63: its binary digits are the counts.
fn cut_numbered(number: u32) -> Cut {
    let mut cut = Cut::empty();
    let mut rest = number;
    for origin in 0..6 {
        cut.counts[origin] = rest % 2;
        rest /= 2;
    }
    cut
}

/// Whether the index agrees with the plain state at every closed cut.
fn agrees(alloc: Global, spec: &Spec, base: &State, index: &Index) -> Result<bool, Fail> {
    for number in 0..64u32 {
        if !agrees_at(alloc, spec, base, index, &cut_numbered(number))? {
            return Ok(false);
        }
    }
    Ok(true)
}

/// Whether the set of facts of the whole history shows the plain state.
fn facts_agree(alloc: Global, spec: &Spec, base: &State, index: &Index) -> Result<bool, Fail> {
    let mut facts = Facts::new(alloc, spec, base.copy()?);
    for tx in index.history().as_slice() {
        facts.take(spec, tx)?;
    }
    let plain = state_at_plain(alloc, spec, base, index.history(), &index.clock())?;
    shows(alloc, &facts, &plain)
}

/// Plays the history of a sample on an index, and compares after each transaction.
fn played(alloc: Global, sample: Sample) -> Result<bool, Fail> {
    let spec = spec_of(alloc, sample)?;
    let base = holding(alloc, &[fact(0, [1, 0, 0])])?;
    let mut index = Index::new(alloc);
    for origin in 0..6 {
        if let Some(tx) = tx_of(origin) {
            append(&mut index, &spec, &tx)?;
        }
        if !agrees(alloc, &spec, &base, &index)? || !facts_agree(alloc, &spec, &base, &index)? {
            return Ok(false);
        }
    }
    Ok(true)
}

#[test]
fn shows_the_plain_state_at_every_closed_cut(rt: HostRuntime) -> Result<(), Fail> {
    for sample in [
        Sample::Enrolment,
        Sample::JointRemoval,
        Sample::EnrolmentAllRemoved,
    ] {
        assert!(rt; played(rt.alloc(), sample)?);
    }
    Ok(())
}

//! A player is removed while another origin enrolls it, both at the empty cut, where every removal wins.

use ipa_clock::{Cut, Dot};
use ipa_history::Tx;
use ipa_logic::View;
use ipa_samples::{Sample, fact, holding, spec_of};
use ipa_sets::Facts;
use ipa_spec::{Action, Spec};
use std::alloc::Global;
use std::test::Fail;

/// Removes the player and all its enrolments.
const REMOVE: u8 = 1;
/// Enrols the player in the cup.
const ENROLL: u8 = 2;

// The first transaction of an origin, at the empty cut.
fn first_of(origin: u8, operation: u8, count: u8) -> Tx {
    Tx {
        dot: Dot { origin, number: 1 },
        cut: Cut::empty(),
        action: Action::Op(operation),
        args: [0; 4],
        count,
    }
}

// The set over the base in which the player is known, after these transactions.
fn taken(alloc: Global, spec: &Spec, txs: &[Tx]) -> Result<Facts, Fail> {
    let base = holding(alloc, &[fact(0, [0, 0, 0])])?;
    let mut facts = Facts::new(alloc, spec, base);
    for tx in txs {
        facts.take(spec, tx)?;
    }
    Ok(facts)
}

#[test]
fn leaves_no_true_fact_in_either_order(rt: HostRuntime) -> Result<(), Fail> {
    let spec = spec_of(rt.alloc(), Sample::EnrolmentAllRemoved)?;
    let remove = first_of(1, REMOVE, 1);
    let enroll = first_of(2, ENROLL, 2);
    for txs in &[[remove, enroll], [enroll, remove]] {
        let facts = taken(rt.alloc(), &spec, txs)?;
        let state = facts.state()?.to_vec(rt.alloc())?;
        assert_eq!(rt; state.len(), 0);
        assert!(rt; !facts.holds(&fact(1, [0, 0, 0])));
        assert!(rt; facts.next_true(0, None).is_none());
    }
    Ok(())
}

#[test]
fn shows_the_enrolment_alone(rt: HostRuntime) -> Result<(), Fail> {
    let spec = spec_of(rt.alloc(), Sample::EnrolmentAllRemoved)?;
    let facts = taken(rt.alloc(), &spec, &[first_of(2, ENROLL, 2)])?;
    let state = facts.state()?.to_vec(rt.alloc())?;
    assert_eq!(rt; state.len(), 2);
    assert!(rt; facts.holds(&fact(1, [0, 0, 0])));
    assert!(rt; facts.next_true(1, None) == Some(fact(1, [0, 0, 0])));
    Ok(())
}

#[test]
fn takes_what_it_has_room_for(rt: HostRuntime) -> Result<(), Fail> {
    let spec = spec_of(rt.alloc(), Sample::EnrolmentAllRemoved)?;
    let mut facts = taken(rt.alloc(), &spec, &[])?;
    facts.reserve()?;
    facts.take(&spec, &first_of(2, ENROLL, 2))?;
    assert!(rt; facts.holds(&fact(1, [0, 0, 0])));
    Ok(())
}

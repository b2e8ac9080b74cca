//! The repairs of small applications.
use ipa_canonical::print_spec;
use ipa_repair::{Repaired, offers, repair};
use ipa_samples::{Sample, spec_of};
use ipa_spec::{Action, Spec};
use std::alloc::Global;
use std::test::Fail;
use std::thread::Threads;

/// How a repair ends.
#[derive(Clone, Copy, Debug, PartialEq, Eq)]
enum End {
    /// Done, with so many steps.
    Done(usize),
    /// Stuck, with so many steps and so many conflicts.
    Stuck(usize, usize),
}

fn end_of(repaired: &Repaired) -> End {
    match repaired {
        Repaired::Done(_, steps) => End::Done(steps.len()),
        Repaired::Stuck(_, steps, analysis) => End::Stuck(steps.len(), analysis.conflicts.len()),
    }
}

#[test]
fn repairs_end_as_worked_out(rt: HostRuntime) -> Result<(), Fail> {
    for (sample, end) in [
        (Sample::Nothing, End::Done(0)),
        (Sample::EnrolmentMended, End::Done(0)),
        (Sample::AdminsMended, End::Done(0)),
        (Sample::Tournament, End::Done(0)),
        (Sample::Enrolment, End::Done(1)),
        (Sample::Admins, End::Done(1)),
        (Sample::Leader, End::Stuck(0, 1)),
        (Sample::Matches, End::Stuck(0, 0)),
    ] {
        let repaired = repair(&rt, rt.alloc(), spec_of(rt.alloc(), sample)?);
        let Ok(repaired) = repaired else {
            return Err("no repair".into());
        };
        assert!(rt; end_of(&repaired) == end, "{sample:?}");
    }
    Ok(())
}

/// Whether two specifications have one canonical text.
fn are_same(alloc: Global, one: &Spec, other: &Spec) -> Result<bool, Fail> {
    let one = print_spec(alloc, one)?;
    let other = print_spec(alloc, other)?;
    Ok(one.as_slice() == other.as_slice())
}

/// Whether the repair of the one sample applies the first of so many offers, and leads to the other sample.
fn is_mended_by_first(
    rt: &(impl Threads + Sync),
    alloc: Global,
    sample: Sample,
    mended: Sample,
    offers: usize,
) -> Result<bool, Fail> {
    let Ok(Repaired::Done(accepted, steps)) = repair(rt, alloc, spec_of(alloc, sample)?) else {
        return Err("not done".into());
    };
    let Some(step) = steps.get(0) else {
        return Err("no step".into());
    };
    let mended = spec_of(alloc, mended)?;
    Ok(
        are_same(alloc, accepted.spec(), &mended)?
            && step.applied == 1
            && step.offers.len() == offers,
    )
}

/// The enrolment makes its player known, of three offers; and locking makes the constant an admin, of two.
#[test]
fn first_offers_are_applied(rt: HostRuntime) -> Result<(), Fail> {
    for (sample, mended, offers) in [
        (Sample::Enrolment, Sample::EnrolmentMended, 3),
        (Sample::Admins, Sample::AdminsMended, 2),
    ] {
        assert!(rt;
            is_mended_by_first(&rt, rt.alloc(), sample, mended, offers)?,
            "{sample:?}"
        );
    }
    Ok(())
}

/// The numbers of parts of the offers of a pair of operations.
fn part_counts(
    rt: &(impl Threads + Sync),
    alloc: Global,
    spec: &Spec,
    left: u8,
    right: u8,
) -> Result<Vec<usize>, Fail> {
    if left > right || right as usize >= spec.operations().len() {
        return Err("no pair".into());
    }
    let Ok(found) = offers(rt, alloc, spec, Action::Op(left), Action::Op(right)) else {
        return Err("no offers".into());
    };
    let mut counts = Vec::new(alloc);
    for offer in found.as_slice() {
        counts.push(offer.parts.len())?;
    }
    Ok(counts)
}

#[test]
fn one_change_comes_before_two(rt: HostRuntime) -> Result<(), Fail> {
    let spec = spec_of(rt.alloc(), Sample::Enrolment)?;
    assert!(rt; part_counts(&rt, rt.alloc(), &spec, 1, 2)?.as_slice() == [1, 2, 2].as_slice());
    assert!(rt; part_counts(&rt, rt.alloc(), &spec, 0, 0)?.is_empty());
    Ok(())
}

//! What is found of each specification.
use crate::specifications::{Subject, spec_of};
use ipa_logic::{Fact, State, View};
use ipa_pairs::{AcceptFault, Analysis, Conflict, accept, analyse};
use ipa_spec::Action;
use std::alloc::Global;
use std::test::Fail;
use std::thread::Threads;

// A conflict of two operations, the literal that is lost, and whether the first element has the facts of the first two
// predicates after left and after right.
#[derive(Clone, Copy)]
struct Row {
    left: u8,
    right: u8,
    lost: u8,
    after_left: [bool; 2],
    after_right: [bool; 2],
}

// Whether the first element alone has these facts of the first two predicates.
fn has(state: &State, facts: [bool; 2]) -> bool {
    let fact = |predicate: u8| -> Fact {
        Fact {
            predicate,
            args: [0; 3],
        }
    };
    state.holds(&fact(0)) == facts[0] && state.holds(&fact(1)) == facts[1]
}

// Whether the conflict is the one of the row, over one element.
fn is_of_row(conflict: &Conflict, row: &Row) -> bool {
    conflict.left == Action::Op(row.left)
        && conflict.right == Action::Op(row.right)
        && conflict.lost == row.lost
        && conflict.universe.sizes == [1, 0, 0, 0, 0, 0, 0, 0]
        && has(&conflict.after_left, row.after_left)
        && has(&conflict.after_right, row.after_right)
}

// The analysis of the specification.
fn analysis_of(
    rt: &(impl Threads + Sync),
    alloc: Global,
    subject: Subject,
) -> Result<Analysis, Fail> {
    let spec = spec_of(alloc, subject)?;
    match analyse(rt, alloc, &spec) {
        Ok(analysis) => Ok(analysis),
        Err(_) => Err("no analysis".into()),
    }
}

// Whether the conflicts are those of the rows.
fn are_of_rows(analysis: &Analysis, rows: &[Row]) -> bool {
    let conflicts = analysis.conflicts.as_slice();
    conflicts.len() == rows.len()
        && conflicts
            .iter()
            .zip(rows)
            .all(|(conflict, row)| is_of_row(conflict, row))
}

#[test]
fn finds_the_conflicts_with_a_constant(rt: HostRuntime) -> Result<(), Fail> {
    let analysis = analysis_of(&rt, rt.alloc(), Subject::Root)?;
    let both = [true, true];
    let none = [false, false];
    let rows = [
        Row {
            left: 0,
            right: 0,
            lost: 1,
            after_left: both,
            after_right: both,
        },
        Row {
            left: 0,
            right: 1,
            lost: 1,
            after_left: both,
            after_right: none,
        },
        Row {
            left: 1,
            right: 0,
            lost: 0,
            after_left: none,
            after_right: both,
        },
    ];
    assert!(rt; are_of_rows(&analysis, &rows) && analysis.unsafe_drops.is_empty());
    Ok(())
}

/// The triples have more patterns than one thread goes through.
#[test]
fn finds_conflicts_by_several_threads(rt: HostRuntime) -> Result<(), Fail> {
    let analysis = analysis_of(&rt, rt.alloc(), Subject::Many)?;
    let rows = [
        Row {
            left: 0,
            right: 1,
            lost: 1,
            after_left: [true, false],
            after_right: [false, true],
        },
        Row {
            left: 1,
            right: 0,
            lost: 0,
            after_left: [false, true],
            after_right: [true, false],
        },
    ];
    assert!(rt; are_of_rows(&analysis, &rows) && analysis.unsafe_drops.is_empty());
    Ok(())
}

#[test]
fn finds_the_drop_of_the_youngest_unsafe(rt: HostRuntime) -> Result<(), Fail> {
    let analysis = analysis_of(&rt, rt.alloc(), Subject::Youngest)?;
    assert!(rt; analysis.conflicts.is_empty() && analysis.unsafe_drops.len() == 1);
    Ok(())
}

#[test]
fn accepts_what_is_free_of_conflicts(rt: HostRuntime) -> Result<(), Fail> {
    for subject in [Subject::RootMended, Subject::Dead] {
        let spec = spec_of(rt.alloc(), subject)?;
        let is_accepted = match accept(&rt, rt.alloc(), spec) {
            Ok(_) => true,
            Err(AcceptFault::Rejected(_)) => false,
            Err(_) => return Err("no verdict".into()),
        };
        assert!(rt; is_accepted, "{subject:?}");
    }
    Ok(())
}

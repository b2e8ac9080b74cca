//! The setup of a document.
use ipa_logic::{Request, View};
use ipa_reader::Document;
use ipa_samples::{Sample, document_of, fact};
use std::test::Fail;

/// Whether the second replica finishes the second cup, and then shows the finished cups.
fn has_its_session(document: &Document) -> Option<bool> {
    let work = document.setup.sessions.get(0)?;
    let finish = Request::Do {
        op: 0,
        args: [1, 0, 0, 0],
    };
    let finished = Request::Show {
        predicate: 1,
        places: [None; 3],
    };
    let is_of_second = work.replica == 1 && work.requests.len() == 2;
    Some(is_of_second && *work.requests.get(0)? == finish && *work.requests.get(1)? == finished)
}

/// Whether the setup has two cups, of which the second is active, and two replicas with one session.
fn has_two_cups(document: &Document) -> bool {
    let setup = &document.setup;
    setup.universe.sizes == [2, 0, 0, 0, 0, 0, 0, 0]
        && setup.base.holds(&fact(0, [1, 0, 0]))
        && !setup.base.holds(&fact(0, [0, 0, 0]))
        && setup.replicas == 2
        && setup.sessions.len() == 1
}

#[test]
fn reads_a_cup_that_is_begun(rt: HostRuntime) -> Result<(), Fail> {
    let document = document_of(rt.alloc(), Sample::BegunCup)?;
    assert!(rt; has_two_cups(&document));
    assert_eq!(rt; has_its_session(&document), Some(true));
    Ok(())
}

//! What is printed of documents: that they are accepted, a report, a triple that is too wide, or a refusal.
use ipa_pairs::{AcceptFault, accept};
use ipa_reader::{DocFault, Document, read_document};
use ipa_report::{refusal, report, too_wide};
use ipa_samples::{Sample, page_of};
use ipa_spec::Spec;
use std::alloc::Global;
use std::test::Fail;
use std::thread::Threads;

/// What is printed of a specification.
fn printed_of(rt: &(impl Threads + Sync), alloc: Global, spec: &Spec) -> Result<Vec<u8>, Fail> {
    match accept(rt, alloc, spec.copy()?) {
        Ok(_) => Ok(b"accepted\n".to_vec(alloc)?),
        Err(AcceptFault::Rejected(analysis)) => Ok(report(alloc, spec, &analysis)?),
        Err(
            AcceptFault::TooWide {
                left,
                right,
                clause,
                count,
            },
        ) => Ok(too_wide(alloc, spec, left, right, clause, count)?),
        Err(AcceptFault::NoMemory) => Err("no memory".into()),
    }
}

/// What is printed of a document that is read, or of its refusal.
fn printed(
    rt: &(impl Threads + Sync),
    alloc: Global,
    read: Result<Document, DocFault>,
) -> Result<Vec<u8>, Fail> {
    match read {
        Ok(document) => printed_of(rt, alloc, &document.spec),
        Err(DocFault::At { line, kind }) => Ok(refusal(alloc, line, &kind)?),
        Err(DocFault::NoMemory) => Err("no memory".into()),
    }
}

/// What is printed of a sample.
fn printed_of_sample(
    rt: &(impl Threads + Sync),
    alloc: Global,
    sample: Sample,
) -> Result<Vec<u8>, Fail> {
    let page = page_of(alloc, sample)?;
    if page.bytes().len() > 100000 {
        return Err("a long sample".into());
    }
    printed(rt, alloc, read_document(alloc, page.bytes()))
}

#[test]
fn prints_what_is_found(rt: HostRuntime) -> Result<(), Fail> {
    for sample in [
        Sample::Nothing,
        Sample::ExclusiveCup,
        Sample::ExclusiveCupRemoved,
        Sample::Enrolment,
        Sample::EnrolmentMended,
        Sample::JointRemoval,
        Sample::EnrolmentAllRemoved,
        Sample::EnrolmentWild,
        Sample::EnrolmentBase,
        Sample::Admins,
        Sample::AdminsMended,
        Sample::Youngest,
        Sample::Leader,
        Sample::Matches,
        Sample::Narrow,
        Sample::Wide,
        Sample::CupBeforeWide,
        Sample::Ajar,
        Sample::Forbidden,
        Sample::Opposites,
        Sample::Flip,
        Sample::Touched,
        Sample::Unfalsified,
        Sample::Falsified,
        Sample::Tournament,
    ] {
        let text = printed_of_sample(&rt, rt.alloc(), sample)?;
        assert!(rt;
            text.as_slice() == sample.printed().as_bytes(),
            "{sample:?}"
        );
    }
    Ok(())
}

/// Each operation adds one of three facts, of which two may stand, so each pair of operations is in conflict.
#[test]
fn finds_nine_conflicts_among_three_adds(rt: HostRuntime) -> Result<(), Fail> {
    let text = printed_of_sample(&rt, rt.alloc(), Sample::ThreeWay)?;
    let start =
        b"\nconflict add_a(x#1) add_b(x#1) breaks k(x#1)\n  after left: a(x#1) c(x#1)\n  after right: a(x#1) b(x#1)\n  lost: not b(x#1)\n  hidden: none\nconflict ";
    assert!(rt;
        text.as_slice()
            .windows(start.len())
            .any(|it| it == start.as_slice())
    );
    assert!(rt;
        text.as_slice()
            .ends_with(b"\nconflicts 9, unsafe drops 0\n")
    );
    Ok(())
}

//! What a log answers the frame, and what it answers other bytes.
use crate::bytes::{SIZE, empty_log, frame_of};
use ipa_frame::FrameFault;
use ipa_gate::{Log, OfferFault, Taken};
use ipa_history::Reason;
use ipa_link::{Delivered, deliver};
use std::test::Fail;

/// One byte changed: its place, what it becomes, and what a log without entries answers.
const CHANGES: [(usize, u8, &str); 17] = [
    (0, 0x03, "bad kind"),
    (1, 0x01, "bad length"),
    (2, 0x4a, "bad field"),
    (2, 0x4e, "bad field"),
    (3, 0x02, "shape"),
    (3, 0x10, "bad field"),
    (7, 0x00, "bad field"),
    (7, 0x02, "shape"),
    (11, 0x01, "gap"),
    (15, 0x01, "shape"),
    (19, 0x01, "shape"),
    (72, 0x01, "not the drop"),
    (72, 0x02, "bad field"),
    (73, 0x01, "shape"),
    (73, 0x20, "bad field"),
    (74, 0x01, "bad field"),
    (76, 0x03, "shape"),
];

/// A word for a fault of the bytes.
pub fn garbled_word(fault: FrameFault) -> &'static str {
    match fault {
        FrameFault::Short => "short",
        FrameFault::BadKind => "bad kind",
        FrameFault::BadLength => "bad length",
        FrameFault::BadField => "bad field",
    }
}

/// A word for a refusal. The gap is that of a log without entries.
fn refused_word(fault: OfferFault) -> &'static str {
    match fault {
        OfferFault::Shape => "shape",
        OfferFault::Gap {
            origin: 0,
            have: 0,
            need: 1,
        } => "gap",
        OfferFault::Illegal(Reason::NotTheDrop) => "not the drop",
        _ => "another",
    }
}

/// A word for an answer.
fn word(answer: Delivered) -> &'static str {
    match answer {
        Delivered::Taken(Taken::New) => "new",
        Delivered::Taken(Taken::Known) => "known",
        Delivered::Refused(fault) => refused_word(fault),
        Delivered::Heard(_) => "heard",
        Delivered::Garbled(fault) => garbled_word(fault),
    }
}

/// What the log answers the bytes, in a word.
pub fn told(log: &mut Log, bytes: &[u8]) -> &'static str {
    word(deliver(log, bytes))
}

/// What the log answers the frame with this byte in this place, and the frame as it was afterwards.
fn told_changed(log: &mut Log, frame: &mut [u8], place: usize, byte: u8) -> &'static str {
    let Some(there) = frame.get_mut(place) else {
        return "no place";
    };
    let kept = *there;
    *there = byte;
    let answer = told(log, frame);
    frame[place] = kept;
    answer
}

#[test]
fn one_changed_byte(rt: HostRuntime) -> Result<(), Fail> {
    let mut log = empty_log(&rt)?;
    let mut frame = frame_of(rt.alloc())?;
    for (place, byte, wanted) in CHANGES {
        assert_eq!(rt;
            told_changed(&mut log, &mut frame, place, byte),
            wanted,
            "at {place}"
        );
    }
    Ok(())
}

/// Whether the log answers each beginning of the frame that it is short.
fn are_short(log: &mut Log, frame: &[u8]) -> bool {
    for size in 0..SIZE {
        let Some(beginning) = frame.get(..size) else {
            return false;
        };
        if told(log, beginning) != "short" {
            return false;
        }
    }
    true
}

#[test]
fn each_beginning_is_short(rt: HostRuntime) -> Result<(), Fail> {
    let mut log = empty_log(&rt)?;
    let frame = frame_of(rt.alloc())?;
    assert_eq!(rt; frame.len(), SIZE);
    assert!(rt; are_short(&mut log, &frame));
    Ok(())
}

#[test]
fn the_frame_is_new_and_then_known(rt: HostRuntime) -> Result<(), Fail> {
    let mut log = empty_log(&rt)?;
    let frame = frame_of(rt.alloc())?;
    assert_eq!(rt; told(&mut log, &frame), "new");
    assert_eq!(rt; told(&mut log, &frame), "known");
    Ok(())
}

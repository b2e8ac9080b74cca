//! The frame of the first transaction of origin 1, made at the empty cut: operation 0 with the arguments 1 and 0.

use ipa_clock::{Cut, Dot};
use ipa_frame::{Frame, FrameFault, read_frame, write_frame};
use ipa_history::Tx;
use ipa_spec::Action;
use std::test::Fail;

/// One byte changed: its place, what it becomes, and the fault, if there is one.
const CHANGES: [(usize, u8, Option<FrameFault>); 17] = [
    (0, 0x03, Some(FrameFault::BadKind)),
    (1, 0x01, Some(FrameFault::BadLength)),
    (2, 0x4a, Some(FrameFault::BadField)),
    (2, 0x4e, Some(FrameFault::BadField)),
    (3, 0x02, None),
    (3, 0x10, Some(FrameFault::BadField)),
    (7, 0x00, Some(FrameFault::BadField)),
    (7, 0x02, None),
    (11, 0x01, None),
    (15, 0x01, None),
    (19, 0x01, None),
    (72, 0x01, None),
    (72, 0x02, Some(FrameFault::BadField)),
    (73, 0x01, None),
    (73, 0x20, Some(FrameFault::BadField)),
    (74, 0x01, Some(FrameFault::BadField)),
    (76, 0x03, None),
];

/// The bytes of the frame.
fn worked_bytes() -> [u8; 79] {
    let mut bytes = [0; 79];
    bytes[0] = 0x01;
    bytes[2] = 0x4c;
    bytes[3] = 0x01;
    bytes[7] = 0x01;
    bytes[74] = 0x02;
    bytes[76] = 0x01;
    bytes
}

#[test]
fn writes_the_worked_frame(rt: HostRuntime) -> Result<(), Fail> {
    let tx = Tx {
        dot: Dot {
            origin: 1,
            number: 1,
        },
        cut: Cut { counts: [0; 16] },
        action: Action::Op(0),
        args: [1, 0, 0, 0],
        count: 2,
    };
    let bytes = write_frame(rt.alloc(), &Frame::Carry(tx))?;
    assert_eq!(rt; bytes.as_slice(), worked_bytes().as_slice());
    Ok(())
}

#[test]
fn reads_the_worked_frame(rt: HostRuntime) -> Result<(), Fail> {
    let (frame, size) = read_frame(&worked_bytes())
        .ok()
        .ok_or("the bytes are a frame")?;
    assert_eq!(rt; size, 79);
    match frame {
        Frame::Have(_) => assert!(rt; false),
        Frame::Carry(tx) => {
            assert_eq!(rt;
                tx.dot,
                Dot {
                    origin: 1,
                    number: 1
                }
            );
            assert_eq!(rt; tx.cut, Cut { counts: [0; 16] });
            assert_eq!(rt; tx.action, Action::Op(0));
            assert_eq!(rt; tx.args, [1, 0, 0, 0]);
            assert_eq!(rt; tx.count, 2);
        }
    }
    Ok(())
}

#[test]
fn each_proper_prefix_is_short(rt: HostRuntime) {
    let bytes = worked_bytes();
    for end in 0..79 {
        let read = read_frame(&bytes[..end]);
        assert_eq!(rt; read.err(), Some(FrameFault::Short));
    }
}

#[test]
fn one_changed_byte(rt: HostRuntime) {
    for (place, to, fault) in CHANGES {
        let mut bytes = worked_bytes();
        if place < 79 {
            bytes[place] = to;
        }
        assert_eq!(rt; read_frame(&bytes).err(), fault);
    }
}

#[test]
fn bytes_that_follow_are_left(rt: HostRuntime) {
    let mut bytes = [0xff; 70];
    bytes[0] = 0x02;
    bytes[1] = 0x00;
    bytes[2] = 0x40;
    match read_frame(&bytes) {
        Ok((Frame::Have(cut), size)) => {
            assert_eq!(rt; size, 67);
            assert_eq!(rt;
                cut,
                Cut {
                    counts: [0xffff_ffff; 16]
                }
            );
        }
        _ => assert!(rt; false),
    }
    let written = write_frame(
        rt.alloc(),
        &Frame::Have(Cut {
            counts: [0xffff_ffff; 16],
        }),
    );
    assert!(rt; written.is_ok_and(|them| them.as_slice() == &bytes[..67]));
}

//! The frame of the second player's enrolment, the first transaction of the second session, and a log for it.
use ipa_clock::{Cut, Dot};
use ipa_frame::{Frame, write_frame};
use ipa_gate::Log;
use ipa_gate_tests::race::setting_of;
use ipa_history::Tx;
use ipa_spec::Action;
use std::alloc::{AllocGlobal, Global};
use std::test::Fail;
use std::thread::Threads;

/// The number of its bytes.
pub const SIZE: usize = 79;

/// The bytes of the frame.
pub fn frame_of(alloc: Global) -> Result<Vec<u8>, Fail> {
    let tx = Tx {
        dot: Dot {
            origin: 1,
            number: 1,
        },
        cut: Cut { counts: [0; 16] },
        action: Action::Op(0),
        args: [1, 0, 0, 0],
        count: 2,
    };
    let bytes = write_frame(alloc, &Frame::Carry(tx))?;
    Ok(bytes)
}

/// The log of two sessions without entries.
pub fn empty_log<R: AllocGlobal + Threads + Sync>(rt: &R) -> Result<Log, Fail> {
    Ok(Log::new(rt.alloc(), setting_of(rt, 2)?))
}

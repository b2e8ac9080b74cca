//! Many frames at once.
use crate::bytes::{SIZE, empty_log, frame_of};
use crate::deliveries::garbled_word;
use ipa_link::{Poured, Stop, pour};
use std::test::Fail;

/// A word for why a pour stopped.
fn stop_word(stop: Stop) -> &'static str {
    match stop {
        Stop::End => "end",
        Stop::Garbled(fault) => garbled_word(fault),
        Stop::NoMemory => "no memory",
    }
}

/// What a pour counted: what was new, known, refused and heard, and the bytes that were read.
fn counts(poured: &Poured) -> (u32, u32, u32, u32, usize) {
    (
        poured.fresh,
        poured.known,
        poured.refused,
        poured.heard,
        poured.read,
    )
}

/// The bytes of the frame twice, and its first ten.
fn twice_and_ten(frame: &[u8]) -> [u8; 168] {
    let mut bytes = [0; 168];
    for place in 0..168 {
        bytes[place] = frame.get(place % SIZE).copied().unwrap_or(0);
    }
    bytes
}

#[test]
fn the_frame_twice_and_ten_bytes_more(rt: HostRuntime) -> Result<(), Fail> {
    let mut log = empty_log(&rt)?;
    let bytes = twice_and_ten(&frame_of(rt.alloc())?);
    let poured = pour(&mut log, &bytes);
    assert!(rt; counts(&poured) == (1, 1, 0, 0, 158));
    assert_eq!(rt; stop_word(poured.stop), "short");
    Ok(())
}

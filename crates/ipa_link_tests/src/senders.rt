//! What is sent to a peer.
use crate::bytes::{empty_log, frame_of};
use crate::deliveries::told;
use ipa_gate::Log;
use ipa_link::Sender;
use std::alloc::AllocGlobal;
use std::test::Fail;
use std::thread::Threads;

/// The log whose entry is the frame's.
fn log_of_one<R: AllocGlobal + Threads + Sync>(rt: &R) -> Result<Log, Fail> {
    let mut log = empty_log(rt)?;
    let frame = frame_of(rt.alloc())?;
    if told(&mut log, &frame) != "new" {
        return Err("the frame is not new".into());
    }
    Ok(log)
}

/// Whether so many entries are sent.
fn sends(sender: &Sender, log: &Log, count: usize) -> Result<bool, Fail> {
    let batch = sender.batch(log)?;
    Ok(batch.len() == count)
}

/// Whether the peer is known to have all entries, once it has told that it has.
fn hears(sender: &mut Sender, log: &Log) -> bool {
    let clock = log.clock();
    sender.heard(&clock);
    sender.peer_has() == clock
}

/// Whether the one entry is sent, and no longer where the peer has told that it has it.
fn is_sent_until_heard(log: &Log) -> Result<bool, Fail> {
    let mut sender = Sender::new();
    let before = sends(&sender, log, 1)?;
    let heard = hears(&mut sender, log);
    let after = sends(&sender, log, 0)?;
    Ok(before && heard && after)
}

#[test]
fn what_was_heard_is_not_sent(rt: HostRuntime) -> Result<(), Fail> {
    let log = log_of_one(&rt)?;
    assert!(rt; is_sent_until_heard(&log)?);
    Ok(())
}

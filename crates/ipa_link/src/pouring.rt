//! Many frames that came.
ghost use Rattle.std.specs.Prelude.{◌≡◌, ◌<◌, IfOk, IfErr, OnErr, drop, length};
ghost use Rattle.ipa_link.specs.Pours.{IsPour, IsStop};
ghost use Rattle.ipa_link.specs.Counting.{is_no_memory, is_wanting, AddsOne, IsStep, IsHalt, AreBelow};

use crate::delivery::{Delivered, receive};
use ipa_frame::{FrameFault, read_frame};
use ipa_gate::{Log, OfferFault, Taken};

/// Why a pour went no further.
#[derive(Clone, Copy)]
pub enum Stop {
    /// All bytes were read.
    End,
    /// No frame stands at the front of the rest.
    Garbled(FrameFault),
    /// Memory is wanting for the transaction at the front of the rest, which the log did not take.
    NoMemory,
}

/// What came of a pour.
#[derive(Clone, Copy)]
pub struct Poured {
    /// How many transactions were appended.
    pub fresh: u32,
    /// How many were entries already.
    pub known: u32,
    /// How many were refused, for a fault other than want of memory.
    pub refused: u32,
    /// How many frames told what their sender has.
    pub heard: u32,
    /// How many bytes were read: those of these frames.
    pub read: usize,
    /// Why it went no further.
    pub stop: Stop,
}

impl From<FrameFault> for Stop {
    ghost use Rattle.std.specs.Prelude.{◌≡◌};
    ghost use Rattle.ipa_link.specs.declared.pouring.Stop.TheVariants.{Garbled};

    ghost from_gives = { λ fault stop. stop ≡ Garbled fault };

    fn from(fault: FrameFault) -> Stop {
        Stop::Garbled(fault)
    }
}

/// Gives the log the frames at the front of the bytes, one after the other, up to the first place where none stands, or
/// where memory is wanting for a transaction.
pub fn pour(log: &mut Log, bytes: &[u8]) -> Poured
    requires few { length bytes.now < 4294967296 }
    // The bytes that were read are these frames and no others, and each was offered in its turn.
    ensures pour { IsPour log.old.setting log.old.entries bytes.now result log.new.entries }
    ensures stop { IsStop bytes.now result.read result.stop }
    ensures setting { log.new.setting ≡ log.old.setting }
{
    let mut poured = Poured {
        fresh: 0,
        known: 0,
        refused: 0,
        heard: 0,
        read: 0,
        stop: Stop::End,
    };
    while poured.read < bytes.len() {
        match pour_one(log, bytes, poured) {
            Ok(next) => poured = next,
            Err(stop) => return Poured { stop, ..poured },
        }
    }
    poured
}

// Gives the log the frame at the front of the bytes that are left, and counts it.
fn pour_one(log: &mut Log, bytes: &[u8], poured: Poured) -> Result<Poured, Stop>
    requires few { length bytes.now < 4294967296 }
    requires more { poured.read < length bytes.now }
    requires below { AreBelow poured }
    ensures step { IfOk result (λ next.
        IsStep log.old.setting log.old.entries (drop poured.read bytes.now) poured next log.new.entries) }
    ensures going { IfOk result (λ next. next.stop ≡ poured.stop) }
    ensures halt { IfErr result (IsHalt (drop poured.read bytes.now)) }
    ensures entries { OnErr result (log.new.entries ≡ log.old.entries) }
    ensures setting { log.new.setting ≡ log.old.setting }
{
    let (frame, size) = read_frame(&bytes[poured.read..])?;
    let answer = receive(log, frame, false);
    if is_wanting(answer) {
        return Err(Stop::NoMemory);
    }
    let counted = counted(poured, answer);
    Ok(Poured {
        read: poured.read + size,
        ..counted
    })
}

// Whether memory was wanting.
fn is_wanting(answer: Delivered) -> bool
    ensures { result ≡ is_wanting answer }
{
    match answer {
        Delivered::Refused(fault) => is_no_memory(fault),
        Delivered::Taken(_) | Delivered::Heard(_) | Delivered::Garbled(_) => false,
    }
}

// Whether the fault is want of memory.
fn is_no_memory(fault: OfferFault) -> bool
    ensures { result ≡ is_no_memory fault }
{
    match fault {
        OfferFault::NoMemory => true,
        OfferFault::Shape
        | OfferFault::Differs { .. }
        | OfferFault::Gap { .. }
        | OfferFault::OpenCut { .. }
        | OfferFault::Full
        | OfferFault::Illegal(_) => false,
    }
}

// The counts with one more answer.
fn counted(poured: Poured, answer: Delivered) -> Poured
    requires fresh { poured.fresh < 4294967295 }
    requires known { poured.known < 4294967295 }
    requires refused { poured.refused < 4294967295 }
    requires heard { poured.heard < 4294967295 }
    ensures added { AddsOne poured answer result }
    ensures stop { result.stop ≡ poured.stop }
{
    match answer {
        Delivered::Taken(Taken::New) => Poured {
            fresh: poured.fresh + 1,
            ..poured
        },
        Delivered::Taken(Taken::Known) => Poured {
            known: poured.known + 1,
            ..poured
        },
        Delivered::Refused(_) => Poured {
            refused: poured.refused + 1,
            ..poured
        },
        Delivered::Heard(_) => Poured {
            heard: poured.heard + 1,
            ..poured
        },
        Delivered::Garbled(_) => poured,
    }
}

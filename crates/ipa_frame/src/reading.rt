//! Bytes to frames. A byte that is missing is read as one that a frame may have there, so the fields that were read
//! are in their ranges just where some frame has the bytes that are there; then the length tells whether all are.
ghost use Rattle.std.specs.Prelude.{◌≡◌, ◌≢◌, ℕ, ◌+◌, ◌*◌, ◌<◌, ◌≤◌, ◌↔◌, IsTrue, MatchOption, MatchResult, length, slice_index_or};
ghost use Rattle.ipa_frame.specs.declared.frame.Frame.{Frame as AFrame};
ghost use Rattle.ipa_frame.specs.Frames.{frame_bytes, IsFrame, Agrees, IsRead, Refuses, IsAction};
ghost use Rattle.ipa_frame.specs.Reading.{number_at, short_at, numbers_at, argument_at, action_of, carried, FieldsStand};

use crate::{Frame, FrameFault};
use ipa_clock::{Cut, Dot};
use ipa_history::Tx;
use ipa_spec::Action;

/// The frame at the front of the bytes, whatever follows it, and the number of its bytes. Takes no memory.
pub fn read_frame(bytes: &[u8]) -> Result<(Frame, usize), FrameFault>
    // What is read stands at the front of the bytes, and the fault is one that they have.
    ensures exact { MatchResult result (λ read. IsRead bytes.now read.0 read.1) (λ fault. Refuses bytes.now fault) }
    // The frame that stands at the front of the bytes is read.
    ensures found { (frame : AFrame) → IsFrame frame → length (frame_bytes frame) ≤ length bytes.now →
        Agrees bytes.now (frame_bytes frame) → result ≡ Ok (frame, length (frame_bytes frame)) }
{
    read_kind(bytes)
}

/// The same, by the first byte.
fn read_kind(bytes: &[u8]) -> Result<(Frame, usize), FrameFault>
    ensures { MatchResult result (λ read. IsRead bytes.now read.0 read.1) (λ fault. Refuses bytes.now fault) }
{
    match byte_or(bytes, 0, 1) {
        1 => read_carry(bytes),
        2 => read_have(bytes),
        _ => Err(FrameFault::BadKind),
    }
}

/// The frame that carries a transaction, where the first byte, if there is one, is 1.
fn read_carry(bytes: &[u8]) -> Result<(Frame, usize), FrameFault>
    requires { slice_index_or bytes.now 0 1 ≡ 1 }
    ensures { MatchResult result (λ read. IsRead bytes.now read.0 read.1) (λ fault. Refuses bytes.now fault) }
{
    if byte_or(bytes, 1, 0) != 0 {
        return Err(FrameFault::BadLength);
    }
    let Some(count) = argument_count(byte_or(bytes, 2, 72)) else {
        return Err(FrameFault::BadLength);
    };
    if !do_fields_stand(bytes, count) {
        return Err(FrameFault::BadField);
    }
    let size = 75 + 2 * usize::from(count);
    if bytes.len() < size {
        return Err(FrameFault::Short);
    }
    Ok((Frame::Carry(carried(bytes, count)), size))
}

/// The frame that tells what its sender has, where the first byte is 2.
fn read_have(bytes: &[u8]) -> Result<(Frame, usize), FrameFault>
    requires { slice_index_or bytes.now 0 1 ≡ 2 }
    ensures { MatchResult result (λ read. IsRead bytes.now read.0 read.1) (λ fault. Refuses bytes.now fault) }
{
    if byte_or(bytes, 1, 0) != 0 {
        return Err(FrameFault::BadLength);
    }
    if byte_or(bytes, 2, 64) != 64 {
        return Err(FrameFault::BadLength);
    }
    if bytes.len() < 67 {
        return Err(FrameFault::Short);
    }
    let counts = numbers_at(bytes, 3);
    Ok((Frame::Have(Cut { counts }), 67))
}

/// The number of arguments in a body of this length, or `None` where no body has it.
fn argument_count(length: u8) -> Option<u8>
    ensures { MatchOption result ((k : ℕ) → k ≤ 4 → length ≢ 72 + 2 * k) (λ k. (k ≤ 4) × (length ≡ 72 + 2 * k)) }
{
    match length {
        72 => Some(0),
        74 => Some(1),
        76 => Some(2),
        78 => Some(3),
        80 => Some(4),
        _ => None,
    }
}

/// Whether the fields of a transaction with so many arguments are in their ranges.
fn do_fields_stand(bytes: &[u8], count: u8) -> bool
    ensures { IsTrue result ↔ FieldsStand bytes.now count }
{
    byte_or(bytes, 3, 0) < 16
        && number_at(bytes, 4, 255) >= 1
        && byte_or(bytes, 72, 0) <= 1
        && is_action(action_of(byte_or(bytes, 72, 0), byte_or(bytes, 73, 0)))
        && byte_or(bytes, 74, count) == count
}

/// Whether an action's number is in its range.
fn is_action(action: Action) -> bool
    ensures { IsTrue result ↔ IsAction action }
{
    match action {
        Action::Op(number) => number < 32,
        Action::Drop(number) => number < 8,
    }
}

/// The action of this kind byte.
#[tactic(auto, unfolding(crate::specs::Reading::action_of))]
fn action_of(kind: u8, number: u8) -> Action
    ensures { result ≡ action_of kind number }
{
    if kind == 0 {
        Action::Op(number)
    } else {
        Action::Drop(number)
    }
}

/// The transaction with so many arguments.
#[tactic(auto, unfolding(crate::specs::Reading::carried))]
fn carried(bytes: &[u8], count: u8) -> Tx
    ensures { result ≡ carried bytes.now count }
{
    Tx {
        dot: Dot {
            origin: byte_or(bytes, 3, 0),
            number: number_at(bytes, 4, 255),
        },
        cut: Cut {
            counts: numbers_at(bytes, 8),
        },
        action: action_of(byte_or(bytes, 72, 0), byte_or(bytes, 73, 0)),
        args: [
            argument_at(bytes, count, 0),
            argument_at(bytes, count, 1),
            argument_at(bytes, count, 2),
            argument_at(bytes, count, 3),
        ],
        count,
    }
}

/// The argument of this place, of so many, and 0 past them.
#[tactic(auto, unfolding(crate::specs::Reading::argument_at))]
fn argument_at(bytes: &[u8], count: u8, place: u8) -> u16
    ensures { result ≡ argument_at bytes.now count place }
{
    if place < count {
        short_at(bytes, 75 + 2 * usize::from(place))
    } else {
        0
    }
}

/// Sixteen numbers from this place on.
fn numbers_at(bytes: &[u8], start: usize) -> [u32; 16]
    requires { start ≤ 8 }
    ensures { result ≡ numbers_at 16 bytes.now start }
{
    let mut numbers = [0; 16];
    for place in 0..16 {
        numbers[place] = number_at(bytes, start + 4 * place, 0);
    }
    numbers
}

/// The number of four bytes from this place on.
#[tactic(auto, unfolding(crate::specs::Reading::number_at))]
fn number_at(bytes: &[u8], place: usize, filler: u8) -> u32
    requires { place < 100 }
    ensures { result ≡ number_at bytes.now place filler }
{
    u32::from_be_bytes([
        byte_or(bytes, place, filler),
        byte_or(bytes, place + 1, filler),
        byte_or(bytes, place + 2, filler),
        byte_or(bytes, place + 3, filler),
    ])
}

/// The number of two bytes from this place on.
#[tactic(auto, unfolding(crate::specs::Reading::short_at))]
fn short_at(bytes: &[u8], place: usize) -> u16
    requires { place < 1000 }
    ensures { result ≡ short_at bytes.now place }
{
    u16::from_be_bytes([byte_or(bytes, place, 0), byte_or(bytes, place + 1, 0)])
}

/// The byte at this place, or the filler where the bytes end before it.
fn byte_or(bytes: &[u8], place: usize, filler: u8) -> u8
    ensures { result ≡ slice_index_or bytes.now place filler }
{
    bytes.get(place).copied().unwrap_or(filler)
}

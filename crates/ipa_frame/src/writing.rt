//! Frames to bytes.
ghost use Rattle.std.specs.Prelude.{◌≡◌, ◌≤◌, ◌++◌, IfOk, OnOk, take};
ghost use Rattle.ipa_frame.specs.Frames.{numbers, short_numbers, action_bytes, carry_body, frame_bytes, IsInRange, kind_and_length};

use crate::Frame;
use ipa_history::Tx;
use ipa_spec::Action;
use std::alloc::{AllocError, Global};

/// The bytes of a frame whose fields are in their ranges.
#[tactic(auto, unfolding(crate::specs::Frames::frame_bytes))]
pub fn write_frame(alloc: Global, frame: &Frame) -> Result<Vec<u8>, AllocError>
    requires { IsInRange frame.now }
    ensures { IfOk result (λ v. v.items ≡ frame_bytes frame.now) }
{
    let mut out = Vec::new(alloc);
    match frame {
        Frame::Carry(tx) => {
            push_head(&mut out, 1, 72 + 2 * u16::from(tx.count))?;
            push_body(&mut out, tx)?;
        }
        Frame::Have(cut) => {
            push_head(&mut out, 2, 64)?;
            push_numbers(&mut out, &cut.counts)?;
        }
    }
    Ok(out)
}

/// Appends the kind and the length.
fn push_head(out: &mut Vec<u8>, kind: u8, length: u16) -> Result<(), AllocError>
    ensures { OnOk result (out.new.items ≡ out.old.items ++ kind_and_length kind length) }
{
    out.push(kind)?;
    out.extend_from_slice(&length.to_be_bytes())?;
    Ok(())
}

/// Appends the body of a frame that carries this transaction.
#[tactic(auto, unfolding(crate::specs::Frames::carry_body))]
fn push_body(out: &mut Vec<u8>, tx: &Tx) -> Result<(), AllocError>
    requires { tx.now.count ≤ 4 }
    ensures { OnOk result (out.new.items ≡ out.old.items ++ carry_body tx.now) }
{
    out.push(tx.dot.origin)?;
    out.extend_from_slice(&tx.dot.number.to_be_bytes())?;
    push_numbers(out, &tx.cut.counts)?;
    push_action(out, tx.action)?;
    out.push(tx.count)?;
    push_short_numbers(out, &tx.args[..usize::from(tx.count)])
}

/// Appends the kind and the number of an action.
fn push_action(out: &mut Vec<u8>, action: Action) -> Result<(), AllocError>
    ensures { OnOk result (out.new.items ≡ out.old.items ++ action_bytes action) }
{
    let (kind, number) = match action {
        Action::Op(number) => (0, number),
        Action::Drop(number) => (1, number),
    };
    out.push(kind)?;
    out.push(number)?;
    Ok(())
}

/// Appends numbers of four bytes.
fn push_numbers(out: &mut Vec<u8>, them: &[u32]) -> Result<(), AllocError>
    ensures { OnOk result (out.new.items ≡ out.old.items ++ numbers them.now) }
{
    for number in them {
        out.extend_from_slice(&number.to_be_bytes())?;
    }
    Ok(())
}

/// Appends numbers of two bytes.
fn push_short_numbers(out: &mut Vec<u8>, them: &[u16]) -> Result<(), AllocError>
    ensures { OnOk result (out.new.items ≡ out.old.items ++ short_numbers them.now) }
{
    for number in them {
        out.extend_from_slice(&number.to_be_bytes())?;
    }
    Ok(())
}

//! Answers, and what stops a command before it has one.
ghost use Rattle.std.specs.Prelude.{◌≡◌, IfOk};

use crate::Status;
use std::alloc::{AllocError, Global};

/// A status and the text that is printed with it.
#[derive(Drop)]
pub struct Answer {
    /// The status.
    pub status: Status,
    /// The text, whole.
    pub text: Vec<u8>,
}

/// Why a command goes no further. Its steps are joined by `?`, so that the first case of the verdict that applies counts.
#[derive(Drop)]
pub enum Stop {
    /// A case of the verdict applies, and this is its answer.
    Answered(Answer),
    /// The source failed.
    ReadFault,
    /// Memory ran out.
    NoMemory,
}

impl From<AllocError> for Stop {
    ghost use Rattle.ipa_command.specs.declared.answers.Stop.TheVariants.{NoMemory};

    ghost from_gives = { λ _ stop. stop ≡ NoMemory };

    fn from(_: AllocError) -> Stop {
        Stop::NoMemory
    }
}

/// A text as bytes.
fn bytes_of(alloc: Global, text: &str) -> Result<Vec<u8>, AllocError>
    ensures { IfOk result (λ bytes. bytes.items ≡ text.now) }
{
    text.as_bytes().to_vec(alloc)
}

/// The answer with this status and text.
pub fn text_answer(alloc: Global, status: Status, text: &str) -> Result<Answer, AllocError>
    ensures status { IfOk result (λ answer. answer.status ≡ status) }
    ensures text { IfOk result (λ answer. answer.text.items ≡ text.now) }
{
    Ok(Answer {
        status,
        text: bytes_of(alloc, text)?,
    })
}

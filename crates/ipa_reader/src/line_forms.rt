//! From the text of a line to its form.
ghost use Rattle.std.specs.Prelude.{◌≡◌, ◌^◌, ◌<◌, length, IfErr, IfOk};
ghost use Rattle.std.specs.List.{All};
ghost use Rattle.ipa_text.specs.Tokens.{IsCutInto, IsToken};
ghost use Rattle.ipa_reader.specs.Documents.{Says};
ghost use Rattle.ipa_reader.specs.Readings.{IsTextFault};
ghost use Rattle.ipa_reader.specs.declared.line_forms.TextFault.TheVariants.{NoMemory};

use crate::refusals::DocKind;
use ipa_forms::{Form, is_existential, read_form};
use ipa_text::{CutFault, Token, cut_line};
use std::alloc::{AllocError, Global};

/// Why a line's text has no form.
#[derive(Clone, Copy)]
pub(crate) enum TextFault {
    // it is refused by itself
    Unread(DocKind),
    NoMemory,
}

impl From<AllocError> for TextFault {
    ghost from_gives = { λ _ fault. fault ≡ NoMemory };

    fn from(_error: AllocError) -> TextFault {
        TextFault::NoMemory
    }
}

/// The form that the text of a line says.
pub(crate) fn form_of(alloc: Global, text: &[u8]) -> Result<Form, TextFault>
    requires { length text.now < 2 ^ 31 }
    ensures says { IfOk result (Says text.now) }
    ensures fault { IfErr result (IsTextFault text.now) }
{
    match cut_line(alloc, text) {
        Ok(tokens) => form_of_tokens(alloc, text, &tokens),
        Err(CutFault::BadByte { .. }) => Err(TextFault::Unread(DocKind::BadByte)),
        Err(CutFault::NoMemory) => Err(TextFault::NoMemory),
    }
}

/// The form that the tokens of a line say.
fn form_of_tokens(alloc: Global, text: &[u8], tokens: &[Token]) -> Result<Form, TextFault>
    requires cut { IsCutInto text.now tokens.now }
    requires each { All (IsToken text.now) tokens.now }
    ensures says { IfOk result (Says text.now) }
    ensures fault { IfErr result (IsTextFault text.now) }
{
    if is_existential(text, tokens) {
        return Err(TextFault::Unread(DocKind::Existential));
    }
    match read_form(alloc, text, tokens)? {
        Some(form) => Ok(form),
        None => Err(TextFault::Unread(DocKind::BadLine)),
    }
}

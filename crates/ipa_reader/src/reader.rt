//! From bytes to a document.
ghost use Rattle.std.specs.Prelude.{◌≡◌, ◌^◌, ◌<◌, length, None, IfErr, IfOk};
ghost use Rattle.ipa_text.specs.Lines.{lines_of};
ghost use Rattle.ipa_reader.specs.Documents.{ReadsAs};
ghost use Rattle.ipa_reader.specs.Readings.{IsReadUpTo, IsFault};

use crate::base::{refusal_at_end, state_of, universe_of};
use crate::document::{Document, Setup};
use crate::document_lines::take_lines;
use crate::element_lists::lists_of;
use crate::refusals::DocFault;
use crate::standing::Standing;
use ipa_names::specification_of;
use ipa_text::last_line;
use std::alloc::Global;

/// The document that stands behind all lines, or its refusal at the last one.
fn finish(alloc: Global, bytes: &[u8], standing: Standing) -> Result<Document, DocFault>
    requires short { length bytes.now < 2 ^ 31 }
    requires read { IsReadUpTo bytes.now (lines_of bytes.now) standing }
    ensures document { IfOk result (ReadsAs bytes.now) }
    ensures fault { IfErr result (IsFault bytes.now) }
{
    let Standing {
        declared,
        arranged,
        ..
    } = standing;
    let spec = specification_of(alloc, declared)?;
    let universe = universe_of(&arranged.elements);
    let base = state_of(alloc, arranged.facts.as_slice())?;
    if let Some(kind) = refusal_at_end(&spec, &arranged.elements, &universe, &base) {
        return Err(DocFault::At {
            line: last_line(bytes),
            kind,
        });
    }
    let elements = lists_of(alloc, &arranged.elements)?;
    Ok(Document {
        spec,
        setup: Setup {
            universe,
            elements,
            base,
            replicas: arranged.replicas as u8,
            sessions: arranged.sessions,
        },
    })
}

/// The document that the bytes read as, of which there are fewer than 2^31.
///
/// Answers the refusal of the lowest line on which one holds, and there the first in the order of
/// the kinds. The limit of instances and the base are judged at the last line. Nothing of a refused
/// document is kept.
pub fn read_document(alloc: Global, bytes: &[u8]) -> Result<Document, DocFault>
    requires { length bytes.now < 2 ^ 31 }
    ensures document { IfOk result (ReadsAs bytes.now) }
    ensures fault { IfErr result (IsFault bytes.now) }
{
    let standing = take_lines(alloc, bytes)?;
    finish(alloc, bytes, standing)
}

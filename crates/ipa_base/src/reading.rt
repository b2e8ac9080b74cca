//! Reading a source to its end.
ghost use Rattle.std.specs.Prelude.{◌≡◌, ◌+◌, ◌<◌, ◌≤◌, length, IfOk, OnOk, IfSome, IsErrOf};
ghost use Rattle.std.specs.Io.KnownBytes.{IsAtEnd};
ghost use Rattle.ipa_base.specs.Faults.{Rose};
ghost use Rattle.ipa_base.specs.Bytes.{GivesUp};

use crate::{ReadEnd, Source};
use std::alloc::Global;

const PIECE: usize = 4096;

/// Reads all bytes up to the source's end, which are at most `limit`. Each read but the last gives at
/// least one byte, so there are at most `limit + 2` of them.
///
/// # Errors
/// `ReadFault` only where the source's count of faults rose, `TooLong` exactly where more than `limit`
/// bytes came, `NoMemory` where memory ran out. The source has then given up what was read.
pub fn read_all<S: Source>(alloc: Global, source: &mut S, limit: u32) -> Result<Vec<u8>, ReadEnd>
    ensures bytes { IfOk result (λ bytes. IfSome (S.left source.old) (λ all. bytes.items ≡ all)) }
    ensures end { OnOk result (IsAtEnd (S.left source.new)) }
    ensures within { IfOk result (λ bytes. length bytes.items ≤ limit) }

    ensures too_long { IsErrOf result ReadEnd.TooLong →
        IfSome (S.left source.old) (λ all. limit < length all) }
    ensures fault { IsErrOf result ReadEnd.ReadFault →
        Rose (S.faults source.old) (S.faults source.new) }

    // On every outcome.
    ensures given_up { GivesUp (S.left source.old) (S.left source.new) }
    ensures count { S.faults source.old ≤ S.faults source.new }
    ensures reads { S.reads source.new ≤ S.reads source.old + (limit + 2) }
{
    let most = limit as usize;
    let mut bytes = Vec::new(alloc);
    let mut piece = [0; PIECE];
    while bytes.len() <= most {
        let count = source.read(&mut piece)?;
        if count == 0 {
            return Ok(bytes);
        }
        bytes.extend_from_slice(&piece[..count])?;
    }
    Err(ReadEnd::TooLong)
}

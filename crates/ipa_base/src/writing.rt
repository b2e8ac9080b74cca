//! Writing all of some bytes to a sink.
ghost use Rattle.std.specs.Prelude.{◌≤◌, OnOk, OnErr};
ghost use Rattle.std.specs.Io.KnownBytes.{Appends};
ghost use Rattle.ipa_base.specs.Faults.{Rose};
ghost use Rattle.ipa_base.specs.Bytes.{AppendsPart};

use crate::{Failed, Sink, WriteFault};

/// Writes all of the bytes, in as many pieces as the sink asks for. It takes no memory.
///
/// # Errors
/// `WriteFault` only where the sink's count of faults rose. A part of the bytes, from the first on, has
/// then gone out.
pub fn write_all<K: Sink>(sink: &mut K, bytes: &[u8]) -> Result<(), WriteFault>
    ensures ok { OnOk result (Appends (K.written sink.old) (K.written sink.new) bytes.now) }
    ensures part { OnErr result (AppendsPart (K.written sink.old) (K.written sink.new) bytes.now) }
    ensures fault { OnErr result (Rose (K.faults sink.old) (K.faults sink.new)) }
    ensures count { K.faults sink.old ≤ K.faults sink.new }
{
    let mut sent = 0;
    while sent < bytes.len() {
        match sink.write(&bytes[sent..]) {
            Ok(count) => sent += count,
            Err(Failed) => return Err(WriteFault),
        }
    }
    Ok(())
}

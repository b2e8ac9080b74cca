//! A source over std's readers.
ghost use Rattle.std.specs.Prelude.{◌≡◌};
ghost use Rattle.std.specs.Io.{ReadsAtMost};
ghost use Rattle.std.specs.Io.KnownBytes.{ReadConsumes};

use crate::{Failed, Source};
use std::io;
use std::io::{ErrorKind, Read};

/// Gives the bytes of a reader, and tells of them what the reader tells. Each error of the reader is a
/// fault, but for interrupted reads, which are made again.
#[derive(Drop)]
pub struct ReaderSource<R> {
    reader: R,
    faults: u64,
}

impl<R: Read> ReaderSource<R> {
    /// A source of the reader's bytes, with no fault so far.
    pub fn new(reader: R) -> ReaderSource<R>
        ensures left { ⟦<ReaderSource<R> as Source>⟧.left result ≡ R.remaining reader }
        ensures faults { ⟦<ReaderSource<R> as Source>⟧.faults result ≡ 0 }
    {
        ReaderSource { reader, faults: 0 }
    }
}

impl<R: Read> Source for ReaderSource<R> {
    ghost left = { λ s. R.remaining s.reader };

    ghost faults = { λ s. s.faults };

    fn read(&mut self, into: &mut [u8]) -> Result<usize, Failed> {
        match read_again(&mut self.reader, into) {
            Ok(count) => Ok(count),
            Err(_) => {
                self.faults = self.faults.saturating_add(1);
                Err(Failed)
            }
        }
    }
}

// One read, made again where it was interrupted.
fn read_again<R: Read>(reader: &mut R, into: &mut [u8]) -> io::Result<usize>
    ensures bound { ReadsAtMost result into.new }
    ensures bytes { ReadConsumes (R.remaining reader.old) (R.remaining reader.new) result into.new }
{
    for _ in 0..u64::MAX {
        match reader.read(into) {
            Err(error) if error.kind() == ErrorKind::Interrupted => {}
            answer => return answer,
        }
    }
    Err(ErrorKind::Interrupted.into())
}

//! A sink in memory, whose calls fail where they are told to.
ghost use Rattle.std.specs.Prelude.{◌≡◌, ◌<◌, ◌≤◌, ◌++◌, [], length, take, min, Some, IfOk, OnErr, IsErr, Contains};
ghost use Rattle.ipa_base.specs.Memory.{SinkState};
ghost use Rattle.std.specs.Io.{WritesAtMost};
ghost use Rattle.std.specs.Io.KnownBytes.{WriteAppends};
ghost use Rattle.ipa_base.specs.Faults.{Rose, next_count};

use crate::calls::Calls;
use crate::{Failed, Sink};
use std::alloc::Global;
use std::marker::Model;

/// Keeps the bytes that are written, at each call as many as it can up to `piece`. It fails, keeping none,
/// at the calls whose numbers from 1 are listed, and where it finds no memory.
#[derive(Drop)]
pub struct MemorySink {
    bytes: Vec<u8>,
    piece: u32,
    calls: Calls,
}

impl Model for MemorySink {
    ghost Value = { SinkState };

    ghost view = { λ s. record {
      written = s.bytes.items;
      piece = s.piece;
      failing = s.calls.failing.items;
      calls = s.calls.count;
      faults = s.calls.faults;
    } };

    ghost invariant = { λ s. 0 < s.piece };
}

impl MemorySink {
    /// An empty sink that takes at most `piece` bytes at a call, and fails at the listed calls.
    pub fn new(alloc: Global, piece: u32, failing: Vec<u32>) -> MemorySink
        requires { 0 < piece }
        ensures { result ≡ record {
          written = [];
          piece = piece;
          failing = failing.items;
          calls = 0;
          faults = 0;
        } }
    {
        MemorySink {
            bytes: Vec::new(alloc),
            piece,
            calls: Calls::new(failing),
        }
    }

    /// All bytes written.
    pub fn bytes(&self) -> &[u8]
        ensures { result.now ≡ self.now.written }
    {
        &self.bytes
    }
}

impl Sink for MemorySink {
    ghost written = { λ s. Some s.written };

    ghost faults = { λ s. s.faults };

    fn write(&mut self, from: &[u8]) -> Result<usize, Failed>
        ensures bound { WritesAtMost result from.now }
        ensures some { IfOk result (λ n. 0 < length from.now → 0 < n) }
        ensures bytes { WriteAppends (Some self.old.written) (Some self.new.written) result from.now }
        ensures failed { OnErr result (Rose self.old.faults self.new.faults) }
        ensures count { self.old.faults ≤ self.new.faults }

        // It fails for want of memory too.
        ensures fails { Contains self.old.failing (next_count self.old.calls) → IsErr result }
        ensures moved { IfOk result (λ n. n ≡ min self.old.piece (length from.now)) }
        ensures ok { IfOk result (λ n. self.new ≡ record self.old {
          written = self.old.written ++ take n from.now;
          calls = next_count self.old.calls;
        }) }
        ensures err { OnErr result (self.new ≡ record self.old {
          calls = next_count self.old.calls;
          faults = next_count self.old.faults;
        }) }
    {
        self.calls.begin()?;
        let count = (self.piece as usize).min(from.len());
        match self.bytes.extend_from_slice(&from[..count]) {
            Ok(()) => Ok(count),
            Err(_) => Err(self.calls.fault()),
        }
    }
}

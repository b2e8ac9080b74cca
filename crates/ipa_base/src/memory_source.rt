//! A source in memory, whose calls fail where they are told to.
ghost use Rattle.std.specs.Prelude.{◌≡◌, ◌↔◌, ◌<◌, ◌≤◌, ◌+◌, length, take, drop, min, Some, IfOk, OnErr, IsErr, Contains};
ghost use Rattle.ipa_base.specs.Memory.{SourceState};
ghost use Rattle.std.specs.Io.{ReadsAtMost};
ghost use Rattle.std.specs.Io.KnownBytes.{ReadConsumes};
ghost use Rattle.ipa_base.specs.Faults.{Rose, next_count};

use crate::calls::Calls;
use crate::{Failed, Source};
use std::marker::Model;

/// Gives the bytes of a list, at each call as many as it can up to `piece`. It fails, giving none, at the
/// calls whose numbers from 1 are listed.
#[derive(Drop)]
pub struct MemorySource {
    bytes: Vec<u8>,
    given: usize,
    piece: u32,
    calls: Calls,
}

impl Model for MemorySource {
    ghost Value = { SourceState };

    ghost view = { λ s. record {
      left = drop s.given s.bytes.items;
      piece = s.piece;
      failing = s.calls.failing.items;
      calls = s.calls.count;
      faults = s.calls.faults;
    } };

    ghost invariant = { λ s. (0 < s.piece) × (s.given ≤ length s.bytes.items) };
}

impl MemorySource {
    /// A source of these bytes that gives at most `piece` of them at a call, and fails at the listed calls.
    pub fn new(bytes: Vec<u8>, piece: u32, failing: Vec<u32>) -> MemorySource
        requires { 0 < piece }
        ensures { result ≡ record {
          left = bytes.items;
          piece = piece;
          failing = failing.items;
          calls = 0;
          faults = 0;
        } }
    {
        MemorySource {
            bytes,
            given: 0,
            piece,
            calls: Calls::new(failing),
        }
    }
}

impl Source for MemorySource {
    ghost left = { λ s. Some s.left };

    ghost faults = { λ s. s.faults };

    ghost reads = { λ s. s.calls };

    fn read(&mut self, into: &mut [u8]) -> Result<usize, Failed>
        ensures bound { ReadsAtMost result into.new }
        ensures bytes { ReadConsumes (Some self.old.left) (Some self.new.left) result into.new }
        ensures failed { OnErr result (Rose self.old.faults self.new.faults) }
        ensures count { self.old.faults ≤ self.new.faults }
        ensures one_read { self.new.calls ≤ self.old.calls + 1 }

        ensures fails { IsErr result ↔ Contains self.old.failing (next_count self.old.calls) }
        ensures moved { IfOk result
            (λ n. n ≡ min self.old.piece (min (length into.old) (length self.old.left))) }
        ensures ok { IfOk result (λ n. self.new ≡ record self.old {
          left = drop n self.old.left;
          calls = next_count self.old.calls;
        }) }
        ensures err { OnErr result (self.new ≡ record self.old {
          calls = next_count self.old.calls;
          faults = next_count self.old.faults;
        }) }
    {
        self.calls.begin()?;
        let count = copy_front(into, &self.bytes[self.given..], self.piece as usize);
        self.given += count;
        Ok(count)
    }
}

// Copies the first bytes, as many as there are, as there is room for, and at most so many.
fn copy_front(into: &mut [u8], from: &[u8], most: usize) -> usize
    ensures count { result ≡ min most (min (length into.old) (length from.now)) }
    ensures copied { take result into.new ≡ take result from.now }
{
    let count = most.min(into.len()).min(from.len());
    into[..count].copy_from_slice(&from[..count]);
    count
}

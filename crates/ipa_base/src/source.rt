//! Where bytes come from.
ghost use Rattle.std.specs.Prelude.{ℕ, ◌+◌, ◌≤◌, List, Option, OnErr};
ghost use Rattle.std.specs.Io.{ReadsAtMost};
ghost use Rattle.std.specs.Io.KnownBytes.{ReadConsumes};
ghost use Rattle.ipa_base.specs.Faults.{Rose};

use crate::Failed;

/// Gives bytes, a piece at a call, and counts its faults.
pub trait Source {
    // The bytes that are left, where the source tells them.
    ghost left: { Self → Option (List ℕ) };

    // How often it has failed. The count never falls.
    ghost faults: { Self → ℕ };

    // How many reads it has counted, where it counts them.
    ghost reads: { Self → ℕ } = { λ _. 0 };

    /// Puts the next bytes at the front of `into`, and answers how many there are. It answers 0 only
    /// where `into` is empty or no byte is left. A read that fails leaves the bytes as they were.
    fn read(&mut self, into: &mut [u8]) -> Result<usize, Failed>
        ensures bound { ReadsAtMost result into.new }
        ensures bytes { ReadConsumes (left self.old) (left self.new) result into.new }
        ensures failed { OnErr result (Rose (faults self.old) (faults self.new)) }
        ensures count { faults self.old ≤ faults self.new }
        ensures one_read { reads self.new ≤ reads self.old + 1 };
}

//! Where bytes go.
ghost use Rattle.std.specs.Prelude.{ℕ, ◌<◌, ◌≤◌, List, Option, length, IfOk, OnErr};
ghost use Rattle.std.specs.Io.{WritesAtMost};
ghost use Rattle.std.specs.Io.KnownBytes.{WriteAppends};
ghost use Rattle.ipa_base.specs.Faults.{Rose};

use crate::Failed;

/// Takes bytes, a piece at a call, and counts its faults.
pub trait Sink {
    // The bytes written, where the sink tells them.
    ghost written: { Self → Option (List ℕ) };

    // How often it has failed. The count never falls.
    ghost faults: { Self → ℕ };

    /// Takes the first bytes of `from`, and answers how many: at least one, unless `from` is empty.
    /// A write that fails takes none.
    fn write(&mut self, from: &[u8]) -> Result<usize, Failed>
        ensures bound { WritesAtMost result from.now }
        ensures some { IfOk result (λ n. 0 < length from.now → 0 < n) }
        ensures bytes { WriteAppends (written self.old) (written self.new) result from.now }
        ensures failed { OnErr result (Rose (faults self.old) (faults self.new)) }
        ensures count { faults self.old ≤ faults self.new };
}

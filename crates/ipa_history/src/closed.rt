//! Whether a cut of a history is closed, and whether a transaction may stand next in it.
ghost use Rattle.std.specs.Prelude.{◌≡◌, ◌↔◌, ℕ, ◌<◌, ◌≤◌, IsTrue};
ghost use Rattle.ipa_clock.specs.Cut.{count_of, Covers, IsBelow};
ghost use Rattle.ipa_history.specs.Histories.{IsClosed, number_of, IsMember};
ghost use Rattle.ipa_history.specs.PushLaws.{CanFollow};
ghost use Rattle.ipa_history.specs.Closings.{AllBelow, IsBelowIfCovered, IsNextNumber};

use crate::history::{History, Tx};
use ipa_clock::Cut;

impl History {
    /// How many transactions of the origin it has.
    fn number_of(&self, origin: u8) -> u32
        ensures { result ≡ number_of origin self.now }
    {
        let _few = self.len();
        self.as_slice()
            .iter()
            .filter(|tx| tx.dot.origin == origin)
            .count() as u32
    }

    /// The cut with all its transactions.
    pub fn clock(&self) -> Cut
        ensures { (origin : ℕ) → origin < 16 → count_of result origin ≡ number_of origin self.now }
    {
        let mut counts = [0; 16];
        for origin in 0..16u8 {
            counts[origin as usize] = self.number_of(origin);
        }
        Cut { counts }
    }

    /// Whether the cut is closed.
    pub fn is_closed(&self, cut: &Cut) -> bool
        ensures { IsTrue result ↔ IsClosed self.now cut.now }
    {
        let _counts = cut.counts;
        cut.is_below(&self.clock()) && self.are_below(cut)
    }

    // Whether the cut of each member of the cut is below it.
    fn are_below(&self, cut: &Cut) -> bool
        ensures { IsTrue result ↔ AllBelow self.now cut.now }
    {
        self.as_slice()
            .iter()
            .all(|tx| is_below_if_covered(tx, cut))
    }

    /// Whether the transaction may stand next.
    pub fn can_follow(&self, tx: &Tx) -> bool
        ensures { IsTrue result ↔ CanFollow self.now tx.now }
    {
        self.len() < 4294967294 && self.is_next(tx) && self.is_closed(&tx.cut)
    }

    fn is_next(&self, tx: &Tx) -> bool
        ensures { IsTrue result ↔ IsNextNumber self.now tx.now }
    {
        tx.dot.origin < 16
            && tx.dot.number > 0
            && tx.dot.number - 1 == self.number_of(tx.dot.origin)
            && tx.dot.number - 1 == tx.cut.counts[tx.dot.origin as usize]
    }
}

fn is_below_if_covered(tx: &Tx, cut: &Cut) -> bool
    ensures { IsTrue result ↔ IsBelowIfCovered cut.now tx.now }
{
    !cut.covers(tx.dot) || tx.cut.is_below(cut)
}

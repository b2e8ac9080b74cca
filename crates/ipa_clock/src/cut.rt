//! What has been seen: the first so many transactions of each origin.
ghost use Rattle.std.specs.Prelude.{◌≡◌, ◌↔◌, ◌+◌, ◌<◌, IsTrue};
ghost use Rattle.ipa_clock.specs.Cut.{count_of, is_covered, IsBelow, empty, joined, raised};

use crate::Dot;

const ORIGINS: usize = 16;

/// How many transactions of each origin have been seen, from the first on.
#[derive(Clone, Copy, Debug, PartialEq, Eq)]
pub struct Cut {
    /// The counts, by origin.
    pub counts: [u32; 16],
}

impl Cut {
    /// The cut with no transaction.
    pub fn empty() -> Cut
        ensures { result ≡ empty }
    {
        Cut {
            counts: [0; ORIGINS],
        }
    }

    /// Whether the transaction with this dot is in the cut.
    pub fn covers(&self, dot: Dot) -> bool
        ensures { result ≡ is_covered self.now dot }
    {
        let count = self.counts.get(usize::from(dot.origin)).copied();
        dot.number <= count.unwrap_or(0)
    }

    /// The least cut that both are below.
    pub fn joined(&self, other: &Cut) -> Cut
        ensures { result ≡ joined self.now other.now }
    {
        let mut counts = self.counts;
        for origin in 0..ORIGINS {
            counts[origin] = counts[origin].max(other.counts[origin]);
        }
        Cut { counts }
    }

    /// Whether each transaction of this cut is in the other.
    pub fn is_below(&self, other: &Cut) -> bool
        ensures { IsTrue result ↔ IsBelow self.now other.now }
    {
        for origin in 0..ORIGINS {
            if self.counts[origin] > other.counts[origin] {
                return false;
            }
        }
        true
    }

    /// The cut with the next transaction of an origin too.
    pub fn raised(&self, dot: Dot) -> Cut
        requires exists { dot.origin < 16 }
        requires next { dot.number ≡ count_of self.now dot.origin + 1 }
        ensures { result ≡ raised self.now dot }
    {
        let mut counts = self.counts;
        counts[usize::from(dot.origin)] = dot.number;
        Cut { counts }
    }
}

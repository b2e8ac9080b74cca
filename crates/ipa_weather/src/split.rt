//! The weather that cuts a link off for a time.
ghost use Rattle.std.specs.Prelude.{◌≡◌, ◌+◌, ℕ};
ghost use Rattle.ipa_weather.specs.Forecasts.{split_due};

use crate::weather::Weather;
use ipa_history::Fate;

/// Frames are held from one answer on and up to another, and pass before and after.
#[derive(Drop)]
pub struct Split {
    from: u32,
    to: u32,
    count: u64,
}

impl Split {
    /// The weather that holds from the answer with number `from`, counted from 0, up to that with number `to`,
    /// which passes again. Nobody has asked it yet.
    pub fn new(from: u32, to: u32) -> Split
        ensures due { (k : ℕ) → ⟦<Split as Weather>⟧.due result k ≡ split_due from to k }
        ensures asked { ⟦<Split as Weather>⟧.asked result ≡ 0 }
    {
        Split { from, to, count: 0 }
    }
}

/// The fate that the answer of this number has.
fn fate_at(from: u32, to: u32, answer: u64) -> Fate
    ensures { result ≡ split_due from to answer }
{
    if u64::from(from) <= answer && answer < u64::from(to) {
        Fate::Hold
    } else {
        Fate::Pass
    }
}

impl Weather for Split {
    ghost due = { λ w k. split_due w.from w.to (w.count + k) };

    ghost asked = { λ w. w.count };

    fn fate(&mut self) -> Fate {
        let fate = fate_at(self.from, self.to, self.count);
        self.count = self.count.saturating_add(1);
        fate
    }
}

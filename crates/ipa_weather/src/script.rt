//! The weather that gives the fates of a list.
ghost use Rattle.std.specs.Prelude.{◌≡◌, ◌+◌, ℕ, get_or};
ghost use Rattle.ipa_history.specs.declared.outcomes.Fate.TheVariants.{Pass};

use crate::weather::Weather;
use ipa_history::Fate;

/// Frames have the fates of a list, in order, and pass after its end.
#[derive(Drop)]
pub struct Script {
    fates: Vec<Fate>,
    at: usize,
    count: u64,
}

impl Script {
    /// The weather of these fates, which nobody has asked yet.
    pub fn new(fates: Vec<Fate>) -> Script
        ensures due { (k : ℕ) → ⟦<Script as Weather>⟧.due result k ≡ get_or fates.items k Pass }
        ensures asked { ⟦<Script as Weather>⟧.asked result ≡ 0 }
    {
        Script {
            fates,
            at: 0,
            count: 0,
        }
    }
}

impl Weather for Script {
    ghost due = { λ w k. get_or w.fates.items (w.at + k) Pass };

    ghost asked = { λ w. w.count };

    fn fate(&mut self) -> Fate {
        self.count = self.count.saturating_add(1);
        if self.at < self.fates.len() {
            let fate = self.fates[self.at];
            self.at += 1;
            fate
        } else {
            Fate::Pass
        }
    }
}

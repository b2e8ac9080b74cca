//! The weather in which all frames pass.
ghost use Rattle.std.specs.Prelude.{◌≡◌, ℕ};
ghost use Rattle.ipa_history.specs.declared.outcomes.Fate.TheVariants.{Pass};

use crate::weather::Weather;
use ipa_history::Fate;

/// All frames pass.
#[derive(Drop)]
pub struct Clear {
    count: u64,
}

impl Clear {
    /// The weather, which nobody has asked yet.
    pub fn new() -> Clear
        ensures due { (k : ℕ) → ⟦<Clear as Weather>⟧.due result k ≡ Pass }
        ensures asked { ⟦<Clear as Weather>⟧.asked result ≡ 0 }
    {
        Clear { count: 0 }
    }
}

impl Weather for Clear {
    ghost due = { λ w k. Pass };

    ghost asked = { λ w. w.count };

    fn fate(&mut self) -> Fate {
        self.count = self.count.saturating_add(1);
        Fate::Pass
    }
}

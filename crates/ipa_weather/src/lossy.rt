//! The weather that loses, doubles and holds by chance: each fate takes one word of a generator.
ghost use Rattle.std.specs.Prelude.{◌≡◌, ℕ};
ghost use Rattle.ipa_weather.specs.Forecasts.{lossy_fate, lossy_due};
ghost use Rattle.rand_pcg.specs.Lcg.{started, increment_of};
ghost use Rattle.rand_pcg.specs.Pcg.{multiplier_64};

use crate::weather::Weather;
use ipa_history::Fate;
use rand_core::utils::NextWord;
use rand_pcg::Lcg64Xsh32;

/// One frame in eight is lost, one is doubled and one is held.
#[derive(Drop)]
pub struct Lossy {
    words: Lcg64Xsh32,
    count: u64,
}

impl Lossy {
    /// The weather of this number on this link, which nobody has asked yet.
    pub fn new(number: u64, link: u8) -> Lossy
        ensures due { (k : ℕ) → ⟦<Lossy as Weather>⟧.due result k ≡ lossy_due (started 64 multiplier_64 number (increment_of 64 link)) k }
        ensures asked { ⟦<Lossy as Weather>⟧.asked result ≡ 0 }
    {
        Lossy {
            words: Lcg64Xsh32::new(number, u64::from(link)),
            count: 0,
        }
    }
}

/// The fate that a word gives.
fn fate_of_word(word: u32) -> Fate
    ensures { result ≡ lossy_fate word }
{
    match word % 8 {
        0 => Fate::Lose,
        1 => Fate::Twice,
        2 => Fate::Hold,
        _ => Fate::Pass,
    }
}

impl Weather for Lossy {
    ghost due = { λ w. lossy_due w.words };

    ghost asked = { λ w. w.count };

    fn fate(&mut self) -> Fate {
        self.count = self.count.saturating_add(1);
        fate_of_word(self.words.next_word())
    }
}

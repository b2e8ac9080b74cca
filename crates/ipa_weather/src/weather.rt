//! What answers the fates of frames.
use ipa_history::Fate;

/// Answers a fate for each frame. It takes no memory.
pub trait Weather: Drop {
    ghost use Rattle.std.specs.Prelude.{◌≡◌, ℕ};
    ghost use Rattle.ipa_history.specs.declared.outcomes.Fate.{Fate};
    ghost use Rattle.ipa_weather.specs.Forecasts.{raised, HasMoved};

    /// The fates that it is due to give from now on, counted from 0.
    ghost due: { Self → ℕ → Fate };

    /// How often it was asked; a count that stays at the last value of 64 bits.
    ghost asked: { Self → ℕ };

    /// The fate that is due, after which the next one is.
    fn fate(&mut self) -> Fate
        ensures fate { result ≡ due self.old 0 }
        ensures moved { HasMoved (due self.old) (due self.new) 1 }
        ensures asked { asked self.new ≡ raised 1 (asked self.old) };
}

//! Weathers that lose each frame, and count how many of them were dropped.
ghost use Rattle.std.specs.Prelude.{◌≡◌, length, IfOk};
ghost use Rattle.ipa_history.specs.declared.outcomes.Fate.TheVariants.{Lose};

use ipa_history::Fate;
use ipa_weather::{Clear, Weather};
use std::alloc::{AllocError, Global};
use std::sync::Arc;
use std::sync::atomic::{AtomicU64, Ordering};

/// All frames are lost.
struct Losing {
    count: u64,
    drops: Arc<AtomicU64>,
}

impl Drop for Losing {
    fn drop(self) {
        self.drops.fetch_add(1, Ordering::SeqCst);
        let Losing { count: _, drops: _ } = self;
    }
}

impl Weather for Losing {
    ghost due = { λ w k. Lose };

    ghost asked = { λ w. w.count };

    fn fate(&mut self) -> Fate {
        self.count = self.count.saturating_add(1);
        Fate::Lose
    }
}

/// Such a weather for each of the 64 links.
pub fn losing_weathers(
    alloc: Global,
    drops: &Arc<AtomicU64>,
) -> Result<Vec<Box<dyn Weather + Send>>, AllocError>
    ensures { IfOk result (λ weathers. length weathers.items ≡ 64) }
{
    let mut weathers = Vec::new(alloc);
    for link in 0..64u32 {
        let weather: Box<dyn Weather + Send> = Box::new(
            alloc,
            Losing {
                count: 0,
                drops: Arc::try_clone(drops)?,
            },
        )?;
        weathers.push(weather)?;
    }
    Ok(weathers)
}

/// A clear weather for each of the 64 links.
pub fn clear_weathers(alloc: Global) -> Result<Vec<Box<dyn Weather + Send>>, AllocError>
    ensures { IfOk result (λ weathers. length weathers.items ≡ 64) }
{
    let mut weathers = Vec::new(alloc);
    for link in 0..64u32 {
        let weather: Box<dyn Weather + Send> = Box::new(alloc, Clear::new())?;
        weathers.push(weather)?;
    }
    Ok(weathers)
}

//! The log.
ghost use Rattle.std.specs.Prelude.{◌≡◌, ◌<◌, ℕ, [], None};
ghost use Rattle.ipa_clock.specs.Cut.{count_of};
ghost use Rattle.ipa_history.specs.Histories.{number_of};
ghost use Rattle.ipa_sets.specs.Indexes.{IsIndexOf};

use crate::entries::clock_of;
use crate::setting::Setting;
use ipa_clock::Cut;
use ipa_history::{History, Tx};
use ipa_sets::Index;
use std::alloc::Global;
use std::marker::Model;

/// A log: a legal history of its setting, by its type, with at most 65536 entries, each of the right shape.
#[derive(Drop)]
pub struct Log {
    pub(crate) alloc: Global,
    pub(crate) setting: Setting,
    pub(crate) index: Index,
    // The transaction that the log is ready for, if there is one.
    pub(crate) ready: Option<Tx>,
}

impl Model for Log {
    ghost use Rattle.ipa_gate.specs.Logs.{LogParts};
    ghost use Rattle.ipa_gate.specs.Keeping.{IsKept};

    ghost Value = { LogParts };

    ghost view = { λ a. record { setting = a.setting; entries = a.index.entries; ready = a.ready } };

    ghost invariant = { λ a. IsKept a.setting a.index a.ready };
}

impl Log {
    ghost use Rattle.ipa_gate.specs.Logs.{IsLog};

    /// The log of the setting without entries, which grows in the memory of `alloc`.
    pub fn new(alloc: Global, setting: Setting) -> Log
        ensures setting { result.setting ≡ setting }
        ensures entries { result.entries ≡ [] }
        ensures ready { result.ready ≡ None }
    {
        let _accepted = setting.accepted();
        Log {
            alloc,
            setting,
            index: Index::new(alloc),
            ready: None,
        }
    }

    /// The setting.
    pub fn setting(&self) -> &Setting
        ensures { result.now ≡ self.now.setting }
    {
        &self.setting
    }

    /// The entries, which are a legal history of the setting.
    pub fn entries(&self) -> &History
        ensures entries { result.now ≡ self.now.entries }
        ensures log { IsLog self.now.setting self.now.entries }
    {
        self.index.history()
    }

    /// The index of the entries, to be asked for the state at any cut.
    pub fn index(&self) -> &Index
        ensures entries { result.now.entries ≡ self.now.entries }
        ensures indexed { IsIndexOf self.now.setting.spec result.now }
    {
        &self.index
    }

    /// The cut with all entries.
    pub fn clock(&self) -> Cut
        ensures { (origin : ℕ) → origin < 16 → count_of result origin ≡ number_of origin self.now.entries }
    {
        clock_of(&self.setting, &self.index)
    }
}

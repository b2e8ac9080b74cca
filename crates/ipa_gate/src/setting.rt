//! The setting of a log.
ghost use Rattle.std.specs.Prelude.{◌≡◌, ◌≤◌, IfOk};
ghost use Rattle.ipa_logic.specs.Facts.{IsUniverse, IsState, has};
ghost use Rattle.ipa_logic.specs.Truth.{Keeps};
ghost use Rattle.ipa_logic.specs.Groups.{Within};

use ipa_logic::{State, Universe};
use ipa_pairs::Accepted;
use std::alloc::AllocError;
use std::marker::Model;

/// What a log is made for: an accepted specification, a universe of it, a base that keeps clauses and bounds, and the
/// number of sessions. All of this holds by the type.
#[derive(Drop)]
pub struct Setting {
    accepted: Accepted,
    universe: Universe,
    base: State,
    sessions: u8,
}

impl Model for Setting {
    ghost use Rattle.ipa_gate.specs.Settings.{SettingParts, IsSetting};

    ghost Value = { SettingParts };

    ghost view = { λ a.
        record { spec = a.accepted; universe = a.universe.sizes; base = a.base; sessions = a.sessions } };

    ghost invariant = { λ a.
        IsSetting (record { spec = a.accepted; universe = a.universe.sizes; base = a.base; sessions = a.sessions }) };
}

impl Setting {
    ghost use Rattle.ipa_gate.specs.Settings.{IsSetting};

    /// The setting of these parts. There are at most 16 sessions.
    pub fn new(accepted: Accepted, universe: Universe, base: State, sessions: u8) -> Setting
        requires sizes { IsUniverse accepted universe.sizes }
        requires base_state { IsState accepted universe.sizes base }
        requires base_keeps { Keeps accepted universe.sizes (has base) }
        requires base_within { Within accepted.bounds base }
        requires few { sessions ≤ 16 }
        ensures { result
            ≡ record { spec = accepted; universe = universe.sizes; base = base; sessions = sessions } }
    {
        let _accepted = accepted.spec();
        Setting {
            accepted,
            universe,
            base,
            sessions,
        }
    }

    /// A copy, or want of memory.
    pub fn copy(&self) -> Result<Setting, AllocError>
        ensures { IfOk result (λ copy. copy ≡ self.now) }
    {
        Ok(Setting {
            accepted: self.accepted.copy()?,
            universe: self.universe,
            base: self.base.copy()?,
            sessions: self.sessions,
        })
    }

    /// The accepted specification.
    pub fn accepted(&self) -> &Accepted
        ensures spec { result.now ≡ self.now.spec }
        ensures setting { IsSetting self.now }
    {
        &self.accepted
    }

    /// The universe.
    pub fn universe(&self) -> &Universe
        ensures { result.now.sizes ≡ self.now.universe }
    {
        &self.universe
    }

    /// The base.
    pub fn base(&self) -> &State
        ensures { result.now ≡ self.now.base }
    {
        &self.base
    }

    /// The number of sessions, at most 16.
    pub fn sessions(&self) -> u8
        ensures { result ≡ self.now.sessions }
    {
        self.sessions
    }
}

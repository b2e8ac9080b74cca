//! Documents: a specification, and the setup that a run of it begins with.
ghost use Rattle.ipa_reader.specs.Fitting.{IsFitting};
ghost use Rattle.ipa_reader.specs.FittingLaws.{IsFitting-prop};
ghost use Rattle.ipa_reader.specs.Setups.{IsSetup, IsKept};
ghost use Rattle.ipa_reader.specs.SetupLaws.{IsSetup-prop, IsKept-prop};

use crate::sessions::SessionWork;
use ipa_logic::{State, Universe};
use ipa_spec::{List, Name, Spec};

/// What a run begins with.
#[derive(Drop)]
pub struct Setup {
    /// The number of elements of each sort.
    pub universe: Universe,
    /// The names of the elements of each sort. A sort without a list has no elements.
    pub elements: List<List<Name>>,
    /// The true facts at the beginning.
    pub base: State,
    /// The number of replicas.
    pub replicas: u8,
    /// The sessions, in order.
    pub sessions: List<SessionWork>,
    pub ghost fits: { IsSetup universe.sizes elements replicas sessions } by { IsSetup-prop universe.sizes elements replicas sessions },
}

/// A document: a specification and its setup, which fits the specification, and whose base keeps all clauses and bounds.
#[derive(Drop)]
pub struct Document {
    /// The specification.
    pub spec: Spec,
    /// The setup.
    pub setup: Setup,
    pub ghost kept: { IsKept spec setup.universe.sizes setup.base } by { IsKept-prop spec setup.universe.sizes setup.base },
    pub ghost fitting: { IsFitting spec setup.universe.sizes setup.elements setup.base setup.sessions } by { IsFitting-prop spec setup.universe.sizes setup.elements setup.base setup.sessions },
}

//! What an analysis answers, and why it is refused.
use ipa_logic::{Fact, State, Universe};
use ipa_spec::{Action, List};
use std::alloc::AllocError;

/// Two actions that replicas can accept without knowing of each other and that together break an
/// instance of a clause, with the first example of it.
#[derive(Drop)]
pub struct Conflict {
    /// The action on the one side.
    pub left: Action,
    /// The action on the other side, which takes away what kept the instance.
    pub right: Action,
    /// The number of the clause.
    pub clause: u8,
    /// The example's elements: the classes of its pattern.
    pub universe: Universe,
    /// The arguments of left, and 0 past them.
    pub left_args: [u16; 4],
    /// The arguments of right, and 0 past them.
    pub right_args: [u16; 4],
    /// The values of the clause's variables, and 0 past them.
    pub values: [u16; 4],
    /// A state that left can have left.
    pub after_left: State,
    /// A state that right can have left.
    pub after_right: State,
    /// The place of the lost literal in the clause, from 0.
    pub lost: u8,
    /// The facts of those literals of the instance, in clause order, that left or right makes true.
    pub hidden: List<Fact>,
}

/// A drop that breaks an instance of a clause, with the first example of it.
#[derive(Drop)]
pub struct UnsafeDrop {
    /// The number of the bound.
    pub bound: u8,
    /// The number of the clause.
    pub clause: u8,
    /// The example's elements: the classes of its pattern.
    pub universe: Universe,
    /// The elements of the dropped fact, and 0 past them.
    pub args: [u16; 4],
    /// The values of the clause's variables, and 0 past them.
    pub values: [u16; 4],
    /// A state that keeps all clauses and holds the fact.
    pub before: State,
}

/// All conflicts, by left, right and clause, and all unsafe drops, by bound and clause.
#[derive(Drop)]
pub struct Analysis {
    /// One example for each triple in conflict.
    pub conflicts: List<Conflict>,
    /// One example for each bound and clause whose drop can break the clause.
    pub unsafe_drops: List<UnsafeDrop>,
}

/// Why there is no analysis.
#[derive(Clone, Copy, Debug)]
pub enum PairFault {
    /// The first live triple with more than 30000 patterns.
    TooWide {
        /// The action on the one side.
        left: Action,
        /// The action on the other side.
        right: Action,
        /// The number of the clause.
        clause: u8,
        /// The number of its patterns.
        count: u64,
    },
    /// Want of memory.
    NoMemory,
}

/// Why a specification is not accepted.
#[derive(Drop)]
pub enum AcceptFault {
    /// Its analysis found a conflict or an unsafe drop.
    Rejected(Analysis),
    /// The first live triple with more than 30000 patterns.
    TooWide {
        /// The action on the one side.
        left: Action,
        /// The action on the other side.
        right: Action,
        /// The number of the clause.
        clause: u8,
        /// The number of its patterns.
        count: u64,
    },
    /// Want of memory.
    NoMemory,
}

impl From<AllocError> for PairFault {
    ghost use Rattle.std.specs.Prelude.{◌≡◌};
    ghost use Rattle.ipa_pairs.specs.declared.analysis.PairFault.TheVariants.{NoMemory};

    ghost from_gives = { λ _ fault. fault ≡ NoMemory };

    fn from(_: AllocError) -> PairFault {
        PairFault::NoMemory
    }
}

impl From<AllocError> for AcceptFault {
    ghost use Rattle.std.specs.Prelude.{◌≡◌};
    ghost use Rattle.ipa_pairs.specs.declared.analysis.AcceptFault.TheVariants.{NoMemory};

    ghost from_gives = { λ _ fault. fault ≡ NoMemory };

    fn from(_: AllocError) -> AcceptFault {
        AcceptFault::NoMemory
    }
}

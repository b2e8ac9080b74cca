//! The steps of a world, and why one is not taken.
use ipa_clock::Cut;
use std::alloc::AllocError;

/// A step of a world. Replicas and sessions are counted from 0.
#[derive(Clone, Copy)]
pub enum Step {
    /// A session sees what the log of its replica has beyond what it has seen.
    Pull {
        /// The session.
        session: u8,
    },
    /// A session acts: it makes the drop that is due where it stands; where none is, its next request is answered.
    Act {
        /// The session.
        session: u8,
    },
    /// An entry of one log is given to another replica.
    Deliver {
        /// The replica that has the entry.
        from: u8,
        /// The replica to which it is given.
        to: u8,
        /// The entry's place in the log, from 0.
        place: u32,
    },
    /// A sender hears what the receiver of its link has.
    Heard {
        /// The replica that sends.
        from: u8,
        /// The replica that receives.
        to: u8,
        /// What it has, or some of it.
        clock: Cut,
    },
}

/// Why a step is not taken.
#[derive(Clone, Copy, Debug, PartialEq, Eq)]
pub enum WorldFault {
    /// A log with 65536 entries is due another one.
    Full,
    /// Memory is wanting.
    NoMemory,
}

impl From<AllocError> for WorldFault {
    ghost use Rattle.std.specs.Prelude.{◌≡◌};
    ghost use Rattle.ipa_world.specs.declared.steps.WorldFault.TheVariants.{NoMemory};

    ghost from_gives = { λ _ fault. fault ≡ NoMemory };

    fn from(_: AllocError) -> WorldFault {
        WorldFault::NoMemory
    }
}

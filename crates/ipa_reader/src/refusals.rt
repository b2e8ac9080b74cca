//! Why a document is refused.
ghost use Rattle.std.specs.Prelude.{◌≡◌};
ghost use Rattle.ipa_reader.specs.declared.refusals.DocFault.TheVariants.{NoMemory};

use ipa_logic::Broken;
use ipa_spec::{Name, SpecFault};
use std::alloc::AllocError;

/// What is wrong with a line. Where several hold of a line, the first in this order is answered.
#[derive(Clone, Copy, PartialEq, Eq)]
pub enum DocKind {
    /// A byte of the line starts no token.
    BadByte,
    /// A clause says `exists`.
    Existential,
    /// The line has no form of the language.
    BadLine,
    /// The specification has a fault at this line, or a setup line has one of names.
    Spec(SpecFault),
    /// The line stands where it may not.
    Order,
    /// An element is not declared in the sort of its place, or there is no such replica.
    UnknownElement,
    /// A count or number passes the limit of number `which`, which is the least such.
    SetupLimit {
        /// The number of the limit, from 14 to 18.
        which: u8,
        /// The count or number that was found.
        found: u64,
    },
    /// The base breaks a clause.
    BaseClause {
        /// The first instance that is not true in the base.
        broken: Broken,
        /// The clause's name.
        clause: Name,
        /// The names of the elements that its variables stand for, and `None` past them.
        elements: [Option<Name>; 4],
    },
    /// The base has a group over a bound.
    BaseOver {
        /// The number of the first such bound.
        bound: u8,
        /// The bound's name.
        name: Name,
    },
}

/// Why no document was read.
#[derive(Clone, Copy, PartialEq, Eq)]
pub enum DocFault {
    /// A line is refused: the first such, counted from 1.
    At {
        /// The line's number.
        line: u32,
        /// What is wrong with it.
        kind: DocKind,
    },
    /// Memory ran out.
    NoMemory,
}

impl From<AllocError> for DocFault {
    ghost from_gives = { λ _ fault. fault ≡ NoMemory };

    fn from(_error: AllocError) -> DocFault {
        DocFault::NoMemory
    }
}

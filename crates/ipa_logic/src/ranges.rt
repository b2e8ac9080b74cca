//! The range of a set of facts that has those of one predicate.
//!
//! It lies between the last fact that the predicate before could have and the first that the predicate after could.
ghost use Rattle.std.specs.Prelude.{◌≡◌, None};
ghost use Rattle.ipa_logic.specs.Ranges.{IsStart, IsEnd};

use crate::facts::Fact;
use std::cmp::Ordering;
use std::ops::Bound;

// Where the facts of the predicate above `after` start.
pub(crate) fn start_of(predicate: u8, after: Option<Fact>) -> Bound<Fact>
    ensures { IsStart predicate after result }
{
    let Some(after) = after else {
        return start_of_all(predicate);
    };
    match after.predicate.cmp(&predicate) {
        Ordering::Less => start_of_all(predicate),
        Ordering::Equal => Bound::Excluded(after),
        Ordering::Greater => Bound::Excluded(last_of(predicate)),
    }
}

// Where the facts of the predicate start.
fn start_of_all(predicate: u8) -> Bound<Fact>
    ensures { IsStart predicate None result }
{
    if predicate == 0 {
        Bound::Unbounded
    } else {
        Bound::Excluded(last_of(predicate - 1))
    }
}

// Where the facts of the predicate end.
pub(crate) fn end_of(predicate: u8) -> Bound<Fact>
    ensures { IsEnd predicate result }
{
    if predicate == u8::MAX {
        Bound::Unbounded
    } else {
        Bound::Excluded(Fact {
            predicate: predicate + 1,
            args: [0; 3],
        })
    }
}

// The last fact that the predicate could have.
fn last_of(predicate: u8) -> Fact
    ensures { result.predicate ≡ predicate }
{
    Fact {
        predicate,
        args: [u16::MAX; 3],
    }
}

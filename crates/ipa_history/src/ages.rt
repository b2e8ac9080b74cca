//! How young a fact is where some transactions are known.
ghost use Rattle.std.specs.Prelude.{◌≡◌, ◌<◌, ◌^◌};
ghost use Rattle.std.specs.List.{sum};
ghost use Rattle.ipa_history.specs.Ages.{age_of_tx, greater_age, age_of};

use crate::history::Tx;
use crate::values::is_maximal_add;
use ipa_clock::Cut;
use ipa_logic::{Age, Fact};
use ipa_spec::Spec;

// The greatest age among the transactions whose effect on the fact is maximal and an add, and 0, 0 where none is.
pub(crate) fn age_of(spec: &Spec, members: &[Tx], fact: &Fact) -> Age
    ensures { result ≡ age_of spec.now members.now fact.now }
{
    members
        .iter()
        .filter(|tx| is_maximal_add(spec, members, fact, tx))
        .fold(
            Age { size: 0, origin: 0 },
            |age, tx| greater_age(age, age_of_tx(tx)),
        )
}

/// The greater of two ages, by size and then by origin.
pub fn greater_age(one: Age, other: Age) -> Age
    ensures { result ≡ greater_age one other }
{
    if one.cmp(&other).is_lt() { other } else { one }
}

/// The age of a transaction: its size, one more than its cut has members, and its origin.
pub fn age_of_tx(tx: &Tx) -> Age
    ensures { result ≡ age_of_tx tx.now }
{
    Age {
        size: members_of(&tx.cut) + 1,
        origin: tx.dot.origin,
    }
}

// The number of transactions in the cut.
fn members_of(cut: &Cut) -> u64
    ensures sum { result ≡ sum cut.now.counts }
    ensures small { result < 2 ^ 40 }
{
    let mut members: u64 = 0;
    for origin in 0..16usize {
        members += u64::from(cut.counts[origin]);
    }
    members
}

//! The last effect on a fact of each origin, and the value and the age that these give.
//!
//! An earlier effect of the same origin is before a later one, so the maximal effects are among these.
ghost use Rattle.std.specs.Prelude.{◌≡◌, is_some};
ghost use Rattle.std.specs.List.{list_any};
ghost use Rattle.ipa_sets.specs.Lasts.{is_passed, adds_last, removes_last, value_by_lasts, age_of_last, age_by_lasts};

use ipa_history::{Tx, age_of_tx, greater_age};
use ipa_logic::Age;

/// The last transaction of an origin that touches a fact.
#[derive(Clone, Copy)]
pub struct Last {
    /// The transaction.
    pub tx: Tx,
    /// Whether it adds the fact; if not, it removes it.
    pub adds: bool,
}

/// The value that the last effects give, where `start` is that of the base.
pub fn value_by_lasts(adds_win: bool, start: bool, lasts: &[Option<Last>; 16]) -> bool
    ensures { result ≡ value_by_lasts adds_win start lasts.now }
{
    if !is_touched(lasts) {
        start
    } else if adds_win {
        is_added_last(lasts)
    } else {
        !is_removed_last(lasts)
    }
}

/// The age that they give: the greatest of the adds that no other comes after, and 0, 0 where there is none.
pub fn age_by_lasts(lasts: &[Option<Last>; 16]) -> Age
    ensures { result ≡ age_by_lasts lasts.now }
{
    lasts.iter().filter(|last| adds_last(lasts, last)).fold(
        Age { size: 0, origin: 0 },
        |age, last| greater_age(age, age_of_last(last)),
    )
}

// Whether there is an effect.
fn is_touched(lasts: &[Option<Last>]) -> bool
    ensures { result ≡ list_any is_some lasts.now }
{
    lasts.iter().any(|last| last.is_some())
}

// Whether an add is among those that none comes after.
fn is_added_last(lasts: &[Option<Last>]) -> bool
    ensures { result ≡ list_any (adds_last lasts.now) lasts.now }
{
    lasts.iter().any(|last| adds_last(lasts, last))
}

// Whether a remove is among those that none comes after.
fn is_removed_last(lasts: &[Option<Last>]) -> bool
    ensures { result ≡ list_any (removes_last lasts.now) lasts.now }
{
    lasts.iter().any(|last| removes_last(lasts, last))
}

// Whether the effect, if there is one, is an add that no other comes after.
fn adds_last(lasts: &[Option<Last>], last: &Option<Last>) -> bool
    ensures { result ≡ adds_last lasts.now last.now }
{
    match last {
        Some(last) => last.adds && !is_passed(lasts, last),
        None => false,
    }
}

// Whether the effect, if there is one, is a remove that no other comes after.
fn removes_last(lasts: &[Option<Last>], last: &Option<Last>) -> bool
    ensures { result ≡ removes_last lasts.now last.now }
{
    match last {
        Some(last) => !last.adds && !is_passed(lasts, last),
        None => false,
    }
}

// Whether another of the effects comes after this one.
fn is_passed(lasts: &[Option<Last>], last: &Last) -> bool
    ensures { result ≡ is_passed lasts.now last.now }
{
    lasts.iter().any(|other| match other {
        Some(other) => other.tx.cut.covers(last.tx.dot),
        None => false,
    })
}

// The age of the transaction of a last effect, and 0, 0 where there is none.
fn age_of_last(last: &Option<Last>) -> Age
    ensures { result ≡ age_of_last last.now }
{
    match last {
        Some(last) => age_of_tx(&last.tx),
        None => Age { size: 0, origin: 0 },
    }
}

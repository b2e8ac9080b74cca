//! Groups whose facts follow each other.
//!
//! Where the keys do not fall along the facts of a predicate, as where the last place is counted, the
//! facts of a group follow each other, and one walk finds the least key over the bound.
ghost use Rattle.std.specs.Prelude.{◌≡◌, ◌≤◌, [], ◌∷◌, ◌++◌, List, MatchOption, IfSome};
ghost use Rattle.ipa_logic.specs.Groups.{key_of};
ghost use Rattle.ipa_logic.specs.DueDrops.{IsWithin, IsLeastOver};
ghost use Rattle.ipa_logic.specs.declared.facts.Fact.{Fact as TheFact};
ghost use Rattle.ipa_bounds.specs.Runs.{count_before, IsRun, IsFound};

use crate::groups::key_of;
use ipa_logic::{Fact, View, true_facts};
use ipa_spec::Bound;
use std::cmp::Ordering;

// What a walk through facts in order of their keys has found.
#[derive(Clone, Copy)]
struct Run {
    // The last fact.
    last: Option<Fact>,
    // The number of facts with its key, as long as no group is over the bound.
    count: u16,
    // A fact of the first group over the bound.
    over: Option<Fact>,
}

// What a walk answers.
#[derive(Clone, Copy)]
pub(crate) enum Found {
    // The keys do not fall, and this is a fact of the group of least key over the bound, if one is.
    InOrder(Option<Fact>),
    // The key of some fact is below that of the fact before it.
    OutOfOrder,
}

// Looks for the group of least key over the bound in one walk.
pub(crate) fn least_in_order<V: View>(view: &V, bound: &Bound) -> Found
    ensures { IsFound bound.now (V.facts view.now) result }
{
    let mut run = Run {
        last: None,
        count: 0,
        over: None,
    };
    for fact in true_facts(view, bound.predicate) {
        match with_fact(bound, run, fact) {
            None => return Found::OutOfOrder,
            Some(next) => run = next,
        }
    }
    Found::InOrder(run.over)
}

// The run with one more fact, or `None` where its key is below that of the last.
fn with_fact(bound: &Bound, run: Run, fact: Fact) -> Option<Run>
    requires { run.count ≤ bound.now.most }
    ensures few { IfSome result (λ next. next.count ≤ bound.now.most) }
    ensures run { (seen : List TheFact) → IsRun bound.now seen run.last run.count run.over → IfSome result (λ next. IsRun bound.now (seen ++ fact ∷ []) next.last next.count next.over) }
{
    let count = count_before(bound, &run, &fact)?;
    if run.over.is_some() {
        return Some(Run {
            last: Some(fact),
            count: run.count,
            over: run.over,
        });
    }
    if count == bound.most {
        return Some(Run {
            last: Some(fact),
            count,
            over: Some(fact),
        });
    }
    Some(Run {
        last: Some(fact),
        count: count + 1,
        over: None,
    })
}

// The number of facts of the run that have the key of the fact, or `None` where its key is below that of the last.
fn count_before(bound: &Bound, run: &Run, fact: &Fact) -> Option<u16>
    ensures value { result ≡ count_before bound.now run.now.last run.now.count fact.now }
    ensures few { IfSome result (λ count. count ≤ run.now.count) }
{
    let Some(last) = run.last else {
        return Some(0);
    };
    match key_of(bound, fact).cmp(&key_of(bound, &last)) {
        Ordering::Less => None,
        Ordering::Equal => Some(run.count),
        Ordering::Greater => Some(0),
    }
}

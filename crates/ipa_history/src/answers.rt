//! What a request is answered at a cut.
ghost use Rattle.std.specs.Prelude.{◌≡◌, ◌<◌, ◌&&◌, IfOk};
ghost use Rattle.ipa_logic.specs.Facts.{has, IsStateOf};
ghost use Rattle.ipa_history.specs.Histories.{IsClosed};
ghost use Rattle.ipa_history.specs.Answers.{is_shown, next_operation, IsAnswer};

use crate::history::{History, Tx};
use crate::legality::reason_against;
use crate::reasons::Reason;
use crate::states::state_at_plain;
use ipa_clock::{Cut, Dot};
use ipa_logic::{Request, State, Universe, View};
use ipa_matching::next_match;
use ipa_spec::laws::spec_is_fit;
use ipa_spec::{Action, Spec};
use std::alloc::{AllocError, Global};

/// What a request is answered.
#[derive(Drop)]
pub enum Answer {
    /// The operation is committed under this number.
    Commit(u32),
    /// The operation would not be legal.
    Refused(Reason),
    /// The true facts that were asked for.
    Shown(State),
}

/// What the request of the origin is answered at the cut.
pub fn answer_plain(
    alloc: Global,
    spec: &Spec,
    universe: &Universe,
    base: &State,
    history: &History,
    cut: &Cut,
    origin: u8,
    request: &Request,
) -> Result<Answer, AllocError>
    requires closed { IsClosed history.now cut.now }
    requires origin { origin < 16 }
    ensures { IfOk result (IsAnswer spec.now universe.now.sizes base.now history.now cut.now origin request.now) }
{
    match request {
        Request::Do { op, args } => {
            answer_do(alloc, spec, universe, base, history, cut, origin, *op, args)
        }
        Request::Show { predicate, places } => {
            let state = state_at_plain(alloc, spec, base, history, cut)?;
            let shown = facts_shown(alloc, &state, *predicate, places)?;
            Ok(Answer::Shown(shown))
        }
    }
}

fn answer_do(
    alloc: Global,
    spec: &Spec,
    universe: &Universe,
    base: &State,
    history: &History,
    cut: &Cut,
    origin: u8,
    op: u8,
    args: &[u16; 4],
) -> Result<Answer, AllocError>
    requires closed { IsClosed history.now cut.now }
    requires origin { origin < 16 }
    ensures { IfOk result
        (IsAnswer spec.now universe.now.sizes base.now history.now cut.now origin (Request.Do op args.now)) }
{
    let tx = next_operation(spec, history, cut, origin, op, args);
    match reason_against(alloc, spec, universe, base, history, &tx)? {
        None => Ok(Answer::Commit(tx.dot.number)),
        Some(reason) => Ok(Answer::Refused(reason)),
    }
}

// The next transaction of the origin at the cut.
fn next_operation(
    spec: &Spec,
    history: &History,
    cut: &Cut,
    origin: u8,
    op: u8,
    args: &[u16; 4],
) -> Tx
    requires closed { IsClosed history.now cut.now }
    requires origin { origin < 16 }
    ensures { result ≡ next_operation spec.now cut.now origin op args.now }
{
    spec_is_fit(spec);
    let count = match spec.operations().get(op as usize) {
        Some(operation) => operation.params.len() as u8,
        None => 0,
    };
    let _few = history.len();
    let _formed = history.as_slice();
    Tx {
        dot: Dot {
            origin,
            number: cut.counts[origin as usize] + 1,
        },
        cut: *cut,
        action: Action::Op(op),
        args: *args,
        count,
    }
}

/// The true facts of the predicate that have the elements wanted in its places. It looks at few others.
pub fn facts_shown<V: View>(
    alloc: Global,
    view: &V,
    predicate: u8,
    places: &[Option<u16>; 3],
) -> Result<State, AllocError>
    ensures { IfOk result (IsStateOf (λ f. has (V.facts view.now) f && is_shown predicate places.now f)) }
{
    let mut shown = State::new(alloc);
    let mut last = None;
    while let Some(fact) = next_match(view, predicate, places, last) {
        shown.insert(fact)?;
        last = Some(fact);
    }
    Ok(shown)
}

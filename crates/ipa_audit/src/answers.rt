//! What a request is answered at a closed cut of the entries, and whether an outcome tells that.
ghost use Rattle.std.specs.Prelude.{◌≡◌, ◌↔◌, ◌<◌, ◌+◌, IsTrue, IfOk, MatchBool, length};
ghost use Rattle.ipa_clock.specs.Cut.{count_of};
ghost use Rattle.ipa_logic.specs.Acceptance.{IsAccepted};
ghost use Rattle.ipa_logic.specs.Requests.{IsDo, IsRequest};
ghost use Rattle.ipa_history.specs.Histories.{IsMember, IsClosed};
ghost use Rattle.ipa_history.specs.declared.history.Tx.{Tx as TheTx};
ghost use Rattle.ipa_spec.specs.Actions.{sorts_of};
ghost use Rattle.ipa_history.specs.Legality.{IsLegalHistory};
ghost use Rattle.ipa_history.specs.Answers.{next_operation, IsAnswer};
ghost use Rattle.ipa_history.specs.LawfulEnds.{IsEntryOf, IsEntered};
ghost use Rattle.ipa_sets.specs.Indexes.{IsIndexOf};
ghost use Rattle.ipa_audit.specs.GoodLines.{IsAnswered, IsFalse};
ghost use Rattle.ipa_audit.specs.Operations.{IsOfOperation, IsCalmWhole};

use crate::finals::is_same_state;
use ipa_clock::{Cut, Dot};
use ipa_gate::{argument_count, is_calm_at, reason_within};
use ipa_history::{Answer, Tx, facts_shown};
use ipa_journal::OutLine;
use ipa_logic::{Request, State, Universe};
use ipa_sets::Index;
use ipa_spec::laws::spec_is_fit;
use ipa_spec::{Action, Spec};
use std::alloc::{AllocError, Global};

// Whether the outcome reads a state within the bounds, and tells what the request is answered there, and whether a
// commit has its entry. The cut is a closed one of the entries. An entry is legal at its cut, so a commit that has one
// is not judged again.
pub(crate) fn is_answered(
    alloc: Global,
    spec: &Spec,
    universe: &Universe,
    base: &State,
    index: &Index,
    request: &Request,
    out: &OutLine,
) -> Result<bool, AllocError>
    requires indexed { IsIndexOf spec.now index.now }
    requires accepted { IsAccepted spec.now }
    requires legal { IsLegalHistory spec.now universe.now.sizes base.now index.now.entries }
    requires counted { (t : TheTx) → IsMember index.now.entries t →
        t.count ≡ length (sorts_of spec.now t.action) }
    requires closed { IsClosed index.now.entries out.now.cut }
    requires origin { out.now.session < 16 }
    requires request { IsRequest spec.now universe.now.sizes request.now }
    ensures { IfOk result (λ good. MatchBool good
        (IsAnswered spec.now universe.now.sizes base.now index.now.entries request.now out.now)
        (IsFalse spec.now universe.now.sizes base.now index.now.entries request.now out.now)) }
{
    match (request, &out.answer) {
        (Request::Do { op, args }, Answer::Commit(number)) => {
            let is_entry = is_entry(spec, index, out.session, *number, &out.cut, *op, args);
            Ok(is_entry)
        }
        _ => is_told(alloc, spec, universe, base, index, request, out),
    }
}

// The same, by answering the request.
fn is_told(
    alloc: Global,
    spec: &Spec,
    universe: &Universe,
    base: &State,
    index: &Index,
    request: &Request,
    out: &OutLine,
) -> Result<bool, AllocError>
    requires indexed { IsIndexOf spec.now index.now }
    requires accepted { IsAccepted spec.now }
    requires legal { IsLegalHistory spec.now universe.now.sizes base.now index.now.entries }
    requires closed { IsClosed index.now.entries out.now.cut }
    requires origin { out.now.session < 16 }
    requires request { IsRequest spec.now universe.now.sizes request.now }
    ensures { IfOk result (λ good. MatchBool good
        (IsAnswered spec.now universe.now.sizes base.now index.now.entries request.now out.now)
        (IsFalse spec.now universe.now.sizes base.now index.now.entries request.now out.now)) }
{
    let _view = index.at(base, &out.cut);
    if !is_calm_at(spec, universe, base, index, &out.cut, out.session) {
        return Ok(false);
    }
    let answer = answer_at(
        alloc,
        spec,
        universe,
        base,
        index,
        &out.cut,
        out.session,
        request,
    )?;
    if !is_same_answer(alloc, &out.answer, &answer)? {
        return Ok(false);
    }
    Ok(is_entered(spec, index, out, request))
}

// What the request of the origin is answered at the cut, whose state is within the bounds.
fn answer_at(
    alloc: Global,
    spec: &Spec,
    universe: &Universe,
    base: &State,
    index: &Index,
    cut: &Cut,
    origin: u8,
    request: &Request,
) -> Result<Answer, AllocError>
    requires indexed { IsIndexOf spec.now index.now }
    requires accepted { IsAccepted spec.now }
    requires legal { IsLegalHistory spec.now universe.now.sizes base.now index.now.entries }
    requires closed { IsClosed index.now.entries cut.now }
    requires origin { origin < 16 }
    requires request { IsRequest spec.now universe.now.sizes request.now }
    requires within { IsCalmWhole spec.now base.now index.now.entries cut.now }
    ensures { IfOk result
        (IsAnswer spec.now universe.now.sizes base.now index.now.entries cut.now origin request.now) }
{
    match request {
        Request::Do { op, args } => {
            Ok(answer_do(spec, universe, base, index, cut, origin, *op, args))
        }
        Request::Show { predicate, places } => {
            let view = index.at(base, cut);
            let shown = facts_shown(alloc, &view, *predicate, places)?;
            Ok(Answer::Shown(shown))
        }
    }
}

// The same of an operation.
fn answer_do(
    spec: &Spec,
    universe: &Universe,
    base: &State,
    index: &Index,
    cut: &Cut,
    origin: u8,
    op: u8,
    args: &[u16; 4],
) -> Answer
    requires indexed { IsIndexOf spec.now index.now }
    requires accepted { IsAccepted spec.now }
    requires legal { IsLegalHistory spec.now universe.now.sizes base.now index.now.entries }
    requires closed { IsClosed index.now.entries cut.now }
    requires origin { origin < 16 }
    requires request { IsDo spec.now universe.now.sizes op args.now }
    requires within { IsCalmWhole spec.now base.now index.now.entries cut.now }
    ensures { IsAnswer spec.now universe.now.sizes base.now index.now.entries cut.now origin
        (Request.Do op args.now) result }
{
    spec_is_fit(spec);
    let tx = next_operation(spec, index, cut, origin, op, args);
    let view = index.at(base, &tx.cut);
    match reason_within(spec, universe, base, index.history(), &view, &tx) {
        None => Answer::Commit(tx.dot.number),
        Some(reason) => Answer::Refused(reason),
    }
}

// The next transaction of the origin at the cut.
fn next_operation(spec: &Spec, index: &Index, cut: &Cut, origin: u8, op: u8, args: &[u16; 4]) -> Tx
    requires indexed { IsIndexOf spec.now index.now }
    requires closed { IsClosed index.now.entries cut.now }
    requires origin { origin < 16 }
    ensures { result ≡ next_operation spec.now cut.now origin op args.now }
{
    let _few = index.history().len();
    Tx {
        dot: Dot {
            origin,
            number: cut.counts[origin as usize] + 1,
        },
        cut: *cut,
        action: Action::Op(op),
        args: *args,
        count: argument_count(spec, Action::Op(op)),
    }
}

// Whether the two are one answer.
fn is_same_answer(alloc: Global, one: &Answer, other: &Answer) -> Result<bool, AllocError>
    ensures { IfOk result (λ same. IsTrue same ↔ (one.now ≡ other.now)) }
{
    match (one, other) {
        (Answer::Commit(one), Answer::Commit(other)) => Ok(*one == *other),
        (Answer::Refused(one), Answer::Refused(other)) => Ok(*one == *other),
        (Answer::Shown(one), Answer::Shown(other)) => is_same_state(alloc, one, other),
        _ => Ok(false),
    }
}

// Whether the outcome of the request, where it is a commit, has its entry.
fn is_entered(spec: &Spec, index: &Index, out: &OutLine, request: &Request) -> bool
    requires { IsIndexOf spec.now index.now }
    ensures { IsTrue result ↔ IsEntered index.now.entries out.now.session out.now.cut request.now out.now.answer }
{
    match (request, &out.answer) {
        (Request::Do { op, args }, Answer::Commit(number)) => {
            is_entry(spec, index, out.session, *number, &out.cut, *op, args)
        }
        _ => true,
    }
}

// Whether the entries have the transaction of a commit.
fn is_entry(
    _spec: &Spec,
    index: &Index,
    origin: u8,
    number: u32,
    cut: &Cut,
    op: u8,
    args: &[u16; 4],
) -> bool
    requires { IsIndexOf _spec.now index.now }
    ensures { IsTrue result ↔ IsEntryOf index.now.entries origin number cut.now op args.now }
{
    match index.find(Dot { origin, number }) {
        Some(tx) => is_of_operation(tx, cut, op, args),
        None => false,
    }
}

// Whether the transaction does the operation, with these arguments, at this cut.
fn is_of_operation(tx: &Tx, cut: &Cut, op: u8, args: &[u16; 4]) -> bool
    ensures { IsTrue result ↔ IsOfOperation tx.now cut.now op args.now }
{
    tx.cut == *cut && is_operation(tx.action, op) && tx.args == *args
}

// Whether the action is the operation.
fn is_operation(action: Action, op: u8) -> bool
    ensures { IsTrue result ↔ (action ≡ Action.Op op) }
{
    match action {
        Action::Op(number) => number == op,
        Action::Drop(_) => false,
    }
}

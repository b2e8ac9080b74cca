//! Whether a transaction is legal at its cut, by the states before and after it.
ghost use Rattle.std.specs.Prelude.{◌≡◌, ◌+◌, IfOk, IfErr, MatchOption};
ghost use Rattle.ipa_clock.specs.Cut.{count_of};
ghost use Rattle.ipa_history.specs.Histories.{IsClosed};
ghost use Rattle.ipa_history.specs.Legality.{IsLegalOperation, IsLegalDrop, IsLegalAs, IsOperationReason, IsDropReason, IsReasonAs, IsLegal, IsIllegal};
ghost use Rattle.ipa_history.specs.Faults.{IfIllegal, IsAround};

use crate::drops::{first_over, is_drop_of};
use crate::history::{History, Tx};
use crate::reasons::Reason;
use crate::states::{members_of, state_of};
use ipa_logic::{State, Universe, first_failing_need, keeps};
use ipa_spec::{Action, Spec};
use std::alloc::{AllocError, Global};

/// Why a call that judges a transaction does not find it legal.
#[derive(Clone, Copy)]
pub enum LegalFault {
    /// The transaction is not legal.
    Illegal(Reason),
    /// Memory is wanting.
    NoMemory,
}

/// Whether the transaction is legal at its cut of the history, or the first reason why not.
pub fn legal_plain(
    alloc: Global,
    spec: &Spec,
    universe: &Universe,
    base: &State,
    history: &History,
    tx: &Tx,
) -> Result<(), LegalFault>
    requires closed { IsClosed history.now tx.now.cut }
    requires next { tx.now.dot.number ≡ count_of tx.now.cut tx.now.dot.origin + 1 }
    ensures legal { IfOk result (λ _. IsLegal spec.now universe.now.sizes base.now history.now tx.now) }
    ensures illegal { IfErr result (IfIllegal (IsIllegal spec.now universe.now.sizes base.now history.now tx.now)) }
{
    match reason_against(alloc, spec, universe, base, history, tx) {
        Ok(None) => Ok(()),
        Ok(Some(reason)) => Err(LegalFault::Illegal(reason)),
        Err(_) => Err(LegalFault::NoMemory),
    }
}

// The first reason why the transaction is not legal at its cut of the history, or `None` where it is.
pub(crate) fn reason_against(
    alloc: Global,
    spec: &Spec,
    universe: &Universe,
    base: &State,
    history: &History,
    tx: &Tx,
) -> Result<Option<Reason>, AllocError>
    requires closed { IsClosed history.now tx.now.cut }
    requires next { tx.now.dot.number ≡ count_of tx.now.cut tx.now.dot.origin + 1 }
    ensures { IfOk result (λ reason. MatchOption reason
        (IsLegal spec.now universe.now.sizes base.now history.now tx.now)
        (IsIllegal spec.now universe.now.sizes base.now history.now tx.now)) }
{
    let members = members_of(alloc, history, &tx.cut)?;
    let around = states_around(alloc, spec, base, history, tx)?;
    let reason = judge(alloc, spec, universe, members.as_slice(), tx, &around)?;
    Ok(reason)
}

// The state at a transaction's cut, and the state with it added.
#[derive(Drop)]
struct Around {
    before: State,
    after: State,
}

// The states around the transaction.
fn states_around(
    alloc: Global,
    spec: &Spec,
    base: &State,
    history: &History,
    tx: &Tx,
) -> Result<Around, AllocError>
    requires closed { IsClosed history.now tx.now.cut }
    requires next { tx.now.dot.number ≡ count_of tx.now.cut tx.now.dot.origin + 1 }
    ensures { IfOk result (λ around. IsAround spec.now base.now history.now tx.now around.before around.after) }
{
    let mut members = members_of(alloc, history, &tx.cut)?;
    let before = state_of(alloc, spec, base, members.as_slice())?;
    members.push(*tx)?;
    let after = state_of(alloc, spec, base, members.as_slice())?;
    Ok(Around { before, after })
}

// The first reason why the transaction is not legal between these states, or `None` where it is. The members are
// those of its cut.
fn judge(
    alloc: Global,
    spec: &Spec,
    universe: &Universe,
    members: &[Tx],
    tx: &Tx,
    around: &Around,
) -> Result<Option<Reason>, AllocError>
    ensures { IfOk result (λ reason. MatchOption reason
        (IsLegalAs tx.now.action spec.now universe.now.sizes members.now tx.now around.now.before around.now.after)
        (IsReasonAs tx.now.action spec.now universe.now.sizes members.now tx.now around.now.before around.now.after)) }
{
    match tx.action {
        Action::Op(_) => judge_operation(alloc, spec, universe, tx, &around.before, &around.after),
        Action::Drop(number) => judge_drop(
            alloc,
            spec,
            universe,
            number,
            members,
            tx,
            &around.before,
            &around.after,
        ),
    }
}

// The same of an operation.
fn judge_operation(
    alloc: Global,
    spec: &Spec,
    universe: &Universe,
    tx: &Tx,
    before: &State,
    after: &State,
) -> Result<Option<Reason>, AllocError>
    ensures { IfOk result (λ reason. MatchOption reason
        (IsLegalOperation spec.now universe.now.sizes tx.now before.now after.now)
        (IsOperationReason spec.now universe.now.sizes tx.now before.now after.now)) }
{
    if let Some(number) = first_over(alloc, spec, before)? {
        return Ok(Some(Reason::NotWithin(number)));
    }
    if let Some(number) = first_failing_need(spec, before, tx.action, &tx.args) {
        return Ok(Some(Reason::Need(number)));
    }
    if let Some(broken) = keeps(spec, universe, after) {
        return Ok(Some(Reason::Clause(broken)));
    }
    if let Some(number) = first_over(alloc, spec, after)? {
        return Ok(Some(Reason::Over(number)));
    }
    Ok(None)
}

// The same of the drop of a bound.
fn judge_drop(
    alloc: Global,
    spec: &Spec,
    universe: &Universe,
    number: u8,
    members: &[Tx],
    tx: &Tx,
    before: &State,
    after: &State,
) -> Result<Option<Reason>, AllocError>
    ensures { IfOk result (λ reason. MatchOption reason
        (IsLegalDrop spec.now universe.now.sizes number members.now tx.now before.now after.now)
        (IsDropReason spec.now universe.now.sizes number members.now tx.now before.now after.now)) }
{
    let due = is_drop_of(alloc, spec, number, members, tx, before)?;
    if !due {
        return Ok(Some(Reason::NotTheDrop));
    }
    if let Some(broken) = keeps(spec, universe, after) {
        return Ok(Some(Reason::Clause(broken)));
    }
    Ok(None)
}

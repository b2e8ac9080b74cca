//! What requests were answered, from the parts of a line.
ghost use Rattle.std.specs.Prelude.{◌≡◌, ◌+◌, ◌≤◌, IfOk, Some, drop, length};
ghost use Rattle.std.specs.Option.{option_map};
ghost use Rattle.ipa_history.specs.declared.reasons.Reason.TheVariants.{NotWithin, Over};
ghost use Rattle.ipa_history.specs.declared.answers.Answer.TheVariants.{Refused, Shown};
ghost use Rattle.ipa_journal.specs.Parts.{number_at};
ghost use Rattle.ipa_journal.specs.Meaning.{answer_in, bound_at, clause_broken, clause_named, clause_reason, commit_in, drop_reason, need_of, need_reason, out_head, out_in, out_with, place_of, reason_in, state_in};

use crate::elements::clause_sorts;
use crate::facts::{state_in, values_in};
use crate::journal::OutLine;
use crate::keywords::Keyword;
use crate::lookups::{Elements, bound_named, clause_named};
use crate::parts::{Part, group_at, is_key, number_at, word_at};
use crate::transactions::{counts_in, origin_at};
use ipa_clock::Cut;
use ipa_history::{Answer, Reason};
use ipa_logic::Broken;
use ipa_spec::{Name, Spec};
use std::alloc::{AllocError, Global};

/// What stands before the result of an outcome.
#[derive(Clone, Copy)]
pub struct OutHead {
    /// The number of the session, from 0.
    pub session: u8,
    /// The place of the request among those of its session, from 0.
    pub place: u32,
    /// What the session had seen.
    pub cut: Cut,
}

fn bound_at(spec: &Spec, parts: &[Part]) -> Option<u8>
    ensures { result ≡ bound_at spec.now parts.now }
{
    if parts.len() != 2 {
        return None;
    }
    let name = word_at(parts, 1)?;
    bound_named(spec, &name)
}

fn need_of(number: u32) -> Option<Reason>
    ensures { result ≡ need_of (Some number) }
{
    if 1 <= number && number <= 6 {
        Some(Reason::Need((number - 1) as u8))
    } else {
        None
    }
}

fn need_reason(parts: &[Part]) -> Option<Reason>
    ensures { result ≡ need_reason parts.now }
{
    if parts.len() != 2 {
        return None;
    }
    match number_at(parts, 1) {
        Some(number) => need_of(number),
        None => None,
    }
}

fn clause_broken(spec: &Spec, elements: &Elements, name: &Name, names: &[Name]) -> Option<Reason>
    ensures { result ≡ clause_broken spec.now elements.now names.now (clause_named spec.now name.now) }
{
    let clause = clause_named(spec, name)?;
    let values = values_in(elements, &clause_sorts(spec, clause), names)?;
    Some(Reason::Clause(Broken { clause, values }))
}

fn clause_reason(spec: &Spec, elements: &Elements, parts: &[Part]) -> Option<Reason>
    ensures { result ≡ clause_reason spec.now elements.now parts.now }
{
    if parts.len() != 3 {
        return None;
    }
    let name = word_at(parts, 1)?;
    let names = group_at(parts, 2)?;
    clause_broken(spec, elements, &name, names)
}

fn within_reason(spec: &Spec, parts: &[Part]) -> Option<Reason>
    ensures { result ≡ option_map NotWithin (bound_at spec.now parts.now) }
{
    match bound_at(spec, parts) {
        Some(bound) => Some(Reason::NotWithin(bound)),
        None => None,
    }
}

fn over_reason(spec: &Spec, parts: &[Part]) -> Option<Reason>
    ensures { result ≡ option_map Over (bound_at spec.now parts.now) }
{
    match bound_at(spec, parts) {
        Some(bound) => Some(Reason::Over(bound)),
        None => None,
    }
}

/// Why an operation was refused.
fn reason_in(spec: &Spec, elements: &Elements, parts: &[Part]) -> Option<Reason>
    ensures { result ≡ reason_in spec.now elements.now parts.now }
{
    if is_key(parts, 0, Keyword::Within) {
        return within_reason(spec, parts);
    }
    if is_key(parts, 0, Keyword::Need) {
        return need_reason(parts);
    }
    if is_key(parts, 0, Keyword::Clause) {
        return clause_reason(spec, elements, parts);
    }
    if is_key(parts, 0, Keyword::Over) {
        return over_reason(spec, parts);
    }
    drop_reason(parts)
}

fn drop_reason(parts: &[Part]) -> Option<Reason>
    ensures { result ≡ drop_reason parts.now }
{
    if is_key(parts, 0, Keyword::Drop) && parts.len() == 1 {
        Some(Reason::NotTheDrop)
    } else {
        None
    }
}

fn commit_in(parts: &[Part]) -> Option<Answer>
    ensures { result ≡ commit_in parts.now }
{
    if parts.len() != 2 {
        return None;
    }
    match number_at(parts, 1) {
        Some(number) => Some(Answer::Commit(number)),
        None => None,
    }
}

/// The parts behind the first.
pub(crate) fn behind(parts: &[Part]) -> &[Part]
    ensures { result.now ≡ drop 1 parts.now }
{
    match parts {
        [] => parts,
        [_, later @ ..] => later,
    }
}

fn refused_in(spec: &Spec, elements: &Elements, parts: &[Part]) -> Option<Answer>
    ensures { result ≡ option_map Refused (reason_in spec.now elements.now (drop 1 parts.now)) }
{
    match reason_in(spec, elements, behind(parts)) {
        Some(reason) => Some(Answer::Refused(reason)),
        None => None,
    }
}

fn shown_in(
    alloc: Global,
    spec: &Spec,
    elements: &Elements,
    parts: &[Part],
) -> Result<Option<Answer>, AllocError>
    ensures { IfOk result (λ found. found ≡ option_map Shown (state_in spec.now elements.now (drop 1 parts.now))) }
{
    match state_in(alloc, spec, elements, behind(parts))? {
        Some(state) => Ok(Some(Answer::Shown(state))),
        None => Ok(None),
    }
}

/// What a request was answered.
fn answer_in(
    alloc: Global,
    spec: &Spec,
    elements: &Elements,
    parts: &[Part],
) -> Result<Option<Answer>, AllocError>
    ensures { IfOk result (λ found. found ≡ answer_in spec.now elements.now parts.now) }
{
    if is_key(parts, 0, Keyword::Commit) {
        return Ok(commit_in(parts));
    }
    if is_key(parts, 0, Keyword::Refused) {
        return Ok(refused_in(spec, elements, parts));
    }
    if is_key(parts, 0, Keyword::Shown) {
        return shown_in(alloc, spec, elements, parts);
    }
    Ok(None)
}

fn place_of(number: u32) -> Option<u32>
    ensures { result ≡ place_of (Some number) }
{
    number.checked_sub(1)
}

/// The place of a request.
fn place_at(parts: &[Part], place: usize) -> Option<u32>
    ensures { result ≡ place_of (number_at parts.now place) }
{
    match number_at(parts, place) {
        Some(number) => place_of(number),
        None => None,
    }
}

/// What stands before the result of an outcome: the session, the place and the counts.
fn out_head(sessions: usize, parts: &[Part]) -> Option<OutHead>
    requires sessions { sessions ≤ 16 }
    requires long { 4 + sessions ≤ length parts.now }
    ensures { result ≡ out_head sessions parts.now }
{
    let session = origin_at(sessions, parts, 1)?;
    let place = place_at(parts, 2)?;
    let counts = counts_in(&parts[4..4 + sessions])?;
    Some(OutHead {
        session,
        place,
        cut: Cut { counts },
    })
}

/// The outcome of a line.
fn out_with(line: u32, head: OutHead, answer: Answer) -> OutLine
    ensures { result ≡ out_with line head answer }
{
    let cut = head.cut;
    OutLine {
        line,
        session: head.session,
        place: head.place,
        cut,
        answer,
    }
}

/// An outcome, on the line of this number.
pub(crate) fn out_in(
    alloc: Global,
    spec: &Spec,
    elements: &Elements,
    sessions: usize,
    line: u32,
    parts: &[Part],
) -> Result<Option<OutLine>, AllocError>
    requires { sessions ≤ 16 }
    ensures { IfOk result (λ found. found ≡ out_in spec.now elements.now sessions line parts.now) }
{
    if parts.len() < 4 + sessions || !is_key(parts, 3, Keyword::Cut) {
        return Ok(None);
    }
    let Some(head) = out_head(sessions, parts) else {
        return Ok(None);
    };
    let Some(answer) = answer_in(alloc, spec, elements, &parts[4 + sessions..])? else {
        return Ok(None);
    };
    Ok(Some(out_with(line, head, answer)))
}

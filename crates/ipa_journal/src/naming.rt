//! From the content of a journal to the pieces of its lines.
ghost use Rattle.std.specs.Prelude.{◌≡◌, ◌+◌, ◌<◌, ◌≤◌, ◌^◌, ◌++◌, IfOk, OnOk, length, map, take};
ghost use Rattle.std.specs.List.{flat_map};
ghost use Rattle.ipa_journal.specs.Naming.{action_pieces, action_word, answer_pieces, bounds_pieces, cut_pieces, declared_word, fact_pieces, facts_pieces, final_pieces, out_pieces, pick_key, pick_piece, reason_pieces, tx_pieces};
ghost use Rattle.ipa_history.specs.declared.reasons.Reason.TheVariants.{Clause as Breaks};
ghost use Rattle.ipa_journal.specs.declared.pieces.Piece.TheVariants.{Number};

use crate::elements::{action_sorts, clause_sorts, elements_in, predicate_sorts};
use crate::keywords::Keyword;
use crate::pieces::Piece;
use ipa_clock::Cut;
use ipa_history::{Answer, Reason, Tx};
use ipa_logic::{Broken, Fact, drop_args};
use ipa_spec::{Action, Bound, List, Name, Pick, Spec};
use std::alloc::{AllocError, Global};

/// One more fact.
fn push_fact(
    alloc: Global,
    pieces: &mut List<Piece>,
    spec: &Spec,
    elements: &List<List<Name>>,
    fact: &Fact,
) -> Result<(), AllocError>
    ensures { OnOk result (pieces.new ≡ pieces.old ++ fact_pieces spec.now elements.now fact.now) }
{
    let sorts = predicate_sorts(spec, fact.predicate);
    let names = elements_in(alloc, elements, sorts, drop_args(fact))?;
    match spec.predicates().get(fact.predicate as usize) {
        Some(predicate) => {
            pieces.push(Piece::Word(predicate.name))?;
            pieces.push(Piece::Group(names))
        }
        None => pieces.push(Piece::Group(names)),
    }
}

/// Each of these facts.
fn push_each_fact(
    alloc: Global,
    pieces: &mut List<Piece>,
    spec: &Spec,
    elements: &List<List<Name>>,
    facts: &[Fact],
) -> Result<(), AllocError>
    ensures { OnOk result (pieces.new ≡ pieces.old ++ flat_map (fact_pieces spec.now elements.now) facts.now) }
{
    for fact in facts {
        push_fact(alloc, pieces, spec, elements, fact)?;
    }
    Ok(())
}

/// A list of facts.
pub(crate) fn push_facts(
    alloc: Global,
    pieces: &mut List<Piece>,
    spec: &Spec,
    elements: &List<List<Name>>,
    facts: &[Fact],
) -> Result<(), AllocError>
    ensures { OnOk result (pieces.new ≡ pieces.old ++ facts_pieces spec.now elements.now facts.now) }
{
    if facts.is_empty() {
        return pieces.push(Piece::Key(Keyword::Nothing));
    }
    push_each_fact(alloc, pieces, spec, elements, facts)
}

/// `do` or `drop`, and the name of the action.
fn push_action_word(pieces: &mut List<Piece>, spec: &Spec, action: Action) -> Result<(), AllocError>
    ensures { OnOk result (pieces.new ≡ pieces.old ++ action_word spec.now action) }
{
    match action {
        Action::Op(number) => {
            pieces.push(Piece::Key(Keyword::Do))?;
            match spec.operations().get(number as usize) {
                Some(operation) => pieces.push(Piece::Word(operation.name)),
                None => Ok(()),
            }
        }
        Action::Drop(number) => {
            pieces.push(Piece::Key(Keyword::Drop))?;
            push_bound(pieces, spec, number)
        }
    }
}

/// The name of a bound.
fn push_bound(pieces: &mut List<Piece>, spec: &Spec, number: u8) -> Result<(), AllocError>
    ensures { OnOk result (pieces.new ≡ pieces.old ++ declared_word (λ b. b.name) spec.now.bounds number) }
{
    match spec.bounds().get(number as usize) {
        Some(bound) => pieces.push(Piece::Word(bound.name)),
        None => Ok(()),
    }
}

/// The action of a transaction with its arguments.
fn push_action(
    alloc: Global,
    pieces: &mut List<Piece>,
    spec: &Spec,
    elements: &List<List<Name>>,
    tx: &Tx,
) -> Result<(), AllocError>
    ensures { OnOk result (pieces.new ≡ pieces.old ++ action_pieces spec.now elements.now tx.now.action tx.now.args) }
{
    let names = elements_in(alloc, elements, action_sorts(spec, tx.action), tx.args)?;
    push_action_word(pieces, spec, tx.action)?;
    pieces.push(Piece::Group(names))
}

/// The counts of a cut of so many origins.
fn push_cut(pieces: &mut List<Piece>, origins: usize, cut: &Cut) -> Result<(), AllocError>
    requires { origins ≤ 16 }
    ensures { OnOk result (pieces.new ≡ pieces.old ++ cut_pieces origins cut.now) }
{
    pieces.push(Piece::Key(Keyword::Cut))?;
    push_numbers(pieces, &cut.counts[..origins])
}

/// Each of these numbers.
fn push_numbers(pieces: &mut List<Piece>, numbers: &[u32]) -> Result<(), AllocError>
    ensures { OnOk result (pieces.new ≡ pieces.old ++ map Number numbers.now) }
{
    for number in numbers {
        pieces.push(Piece::Number(u64::from(*number)))?;
    }
    Ok(())
}

/// The line of a transaction.
pub(crate) fn tx_pieces(
    alloc: Global,
    spec: &Spec,
    elements: &List<List<Name>>,
    origins: usize,
    tx: &Tx,
) -> Result<List<Piece>, AllocError>
    requires { origins ≤ 16 }
    ensures { IfOk result (λ pieces. pieces ≡ tx_pieces spec.now elements.now origins tx.now) }
{
    let mut pieces = List::new(alloc);
    pieces.push(Piece::Key(Keyword::Tx))?;
    pieces.push(Piece::Number(u64::from(tx.dot.origin) + 1))?;
    pieces.push(Piece::Number(u64::from(tx.dot.number)))?;
    push_cut(&mut pieces, origins, &tx.cut)?;
    push_action(alloc, &mut pieces, spec, elements, tx)?;
    Ok(pieces)
}

/// A broken clause with the names of its values.
fn push_broken(
    alloc: Global,
    pieces: &mut List<Piece>,
    spec: &Spec,
    elements: &List<List<Name>>,
    broken: &Broken,
) -> Result<(), AllocError>
    ensures { OnOk result (pieces.new ≡ pieces.old ++ reason_pieces spec.now elements.now (Breaks broken.now)) }
{
    let names = elements_in(
        alloc,
        elements,
        clause_sorts(spec, broken.clause),
        broken.values,
    )?;
    pieces.push(Piece::Key(Keyword::Clause))?;
    match spec.clauses().get(broken.clause as usize) {
        Some(clause) => {
            pieces.push(Piece::Word(clause.name))?;
            pieces.push(Piece::Group(names))
        }
        None => pieces.push(Piece::Group(names)),
    }
}

/// Why an operation was refused.
pub(crate) fn push_reason(
    alloc: Global,
    pieces: &mut List<Piece>,
    spec: &Spec,
    elements: &List<List<Name>>,
    reason: &Reason,
) -> Result<(), AllocError>
    ensures { OnOk result (pieces.new ≡ pieces.old ++ reason_pieces spec.now elements.now reason.now) }
{
    match reason {
        Reason::NotWithin(number) => {
            pieces.push(Piece::Key(Keyword::Within))?;
            push_bound(pieces, spec, *number)
        }
        Reason::Need(number) => {
            pieces.push(Piece::Key(Keyword::Need))?;
            pieces.push(Piece::Number(u64::from(*number) + 1))
        }
        Reason::Clause(broken) => push_broken(alloc, pieces, spec, elements, broken),
        Reason::Over(number) => {
            pieces.push(Piece::Key(Keyword::Over))?;
            push_bound(pieces, spec, *number)
        }
        Reason::NotTheDrop => pieces.push(Piece::Key(Keyword::Drop)),
    }
}

/// What a request was answered.
fn push_answer(
    alloc: Global,
    pieces: &mut List<Piece>,
    spec: &Spec,
    elements: &List<List<Name>>,
    answer: &Answer,
) -> Result<(), AllocError>
    ensures { OnOk result (pieces.new ≡ pieces.old ++ answer_pieces spec.now elements.now answer.now) }
{
    match answer {
        Answer::Commit(number) => {
            pieces.push(Piece::Key(Keyword::Commit))?;
            pieces.push(Piece::Number(u64::from(*number)))
        }
        Answer::Refused(reason) => {
            pieces.push(Piece::Key(Keyword::Refused))?;
            push_reason(alloc, pieces, spec, elements, reason)
        }
        Answer::Shown(state) => {
            let facts = state.to_vec(alloc)?;
            pieces.push(Piece::Key(Keyword::Shown))?;
            push_facts(alloc, pieces, spec, elements, &facts)
        }
    }
}

/// The line of what a request was answered.
pub(crate) fn out_pieces(
    alloc: Global,
    spec: &Spec,
    elements: &List<List<Name>>,
    origins: usize,
    session: u8,
    place: u64,
    cut: &Cut,
    answer: &Answer,
) -> Result<List<Piece>, AllocError>
    requires origins { origins ≤ 16 }
    requires place { place + 1 < 2 ^ 64 }
    ensures { IfOk result (λ pieces. pieces ≡ out_pieces spec.now elements.now origins session place cut.now answer.now) }
{
    let mut pieces = List::new(alloc);
    pieces.push(Piece::Key(Keyword::Out))?;
    pieces.push(Piece::Number(u64::from(session) + 1))?;
    pieces.push(Piece::Number(place + 1))?;
    push_cut(&mut pieces, origins, cut)?;
    push_answer(alloc, &mut pieces, spec, elements, answer)?;
    Ok(pieces)
}

/// The line of the final facts.
pub(crate) fn final_pieces(
    alloc: Global,
    spec: &Spec,
    elements: &List<List<Name>>,
    facts: &[Fact],
) -> Result<List<Piece>, AllocError>
    ensures { IfOk result (λ pieces. pieces ≡ final_pieces spec.now elements.now facts.now) }
{
    let mut pieces = List::new(alloc);
    pieces.push(Piece::Key(Keyword::Final))?;
    push_facts(alloc, &mut pieces, spec, elements, facts)?;
    Ok(pieces)
}

/// The word for which fact a drop takes.
pub(crate) fn pick_key(pick: Pick) -> Keyword
    ensures { result ≡ pick_key pick }
{
    match pick {
        Pick::Greatest => Keyword::Greatest,
        Pick::Youngest => Keyword::Youngest,
    }
}

/// Which fact the drop of each of these bounds takes.
fn push_picks(pieces: &mut List<Piece>, bounds: &[Bound]) -> Result<(), AllocError>
    ensures { OnOk result (pieces.new ≡ pieces.old ++ map (λ b. pick_piece b.pick) bounds.now) }
{
    for bound in bounds {
        pieces.push(Piece::Key(pick_key(bound.pick)))?;
    }
    Ok(())
}

/// The line of the bounds.
pub(crate) fn bounds_pieces(alloc: Global, bounds: &[Bound]) -> Result<List<Piece>, AllocError>
    ensures { IfOk result (λ pieces. pieces ≡ bounds_pieces bounds.now) }
{
    let mut pieces = List::new(alloc);
    pieces.push(Piece::Key(Keyword::Bounds))?;
    if bounds.is_empty() {
        pieces.push(Piece::Key(Keyword::Nothing))?;
        return Ok(pieces);
    }
    push_picks(&mut pieces, bounds)?;
    Ok(pieces)
}

//! The triples in conflict after some candidates, from those before.
//!
//! Two actions to which the candidates add no effect conflict on a clause that is judged the same exactly where they did
//! before: conflicts are local. So only the other triples are searched.
ghost use Rattle.std.specs.Prelude.{◌≡◌, ◌<◌, ◌∷◌, [], length, IfOk, OnOk, MatchBool, MatchOption};
ghost use Rattle.std.specs.List.{list_all};
ghost use Rattle.ipa_spec.specs.Actions.{IsAction};
ghost use Rattle.ipa_logic.specs.Conflicts.{Conflict};
ghost use Rattle.ipa_pairs.specs.Width.{IsDeclared, IsNarrow};
ghost use Rattle.ipa_repair.specs.Applying.{applied};
ghost use Rattle.ipa_repair.specs.Chosen.{Gains};
ghost use Rattle.ipa_repair.specs.Unchanged.{same_judgement, leaves_alone, is_untouched};
ghost use Rattle.ipa_repair.specs.Showing.{AreClashes, AreJudged, IsClash, clash, clashes_of_pair, clashes_of_left};

use crate::candidates::Candidate;
use crate::clashes::{Clash, is_clash};
use crate::laws::conflicts_are_local;
use crate::listing::same_kind;
use crate::pairs::{action_at, action_count};
use ipa_logic::{can_be_falsified, wins};
use ipa_pairs::Search;
use ipa_spec::laws::spec_is_fit;
use ipa_spec::{Action, Clause, List, Literal, Spec};
use std::alloc::{AllocError, Global};

/// The triples in conflict of a specification that some candidates lead to, from those before; `None` where a live triple
/// of it has more than 30000 patterns.
pub(crate) fn clashes_after(
    alloc: Global,
    spec: &Spec,
    clashes: &[Clash],
    parts: &[Candidate],
    next: &Spec,
) -> Result<Option<List<Clash>>, AllocError>
    requires clashes { AreClashes spec.now clashes.now }
    requires leads { next.now ≡ applied spec.now parts.now }
    ensures { IfOk result (λ found. MatchOption found (IsNarrow next.now (IsDeclared next.now) → ⊥)
        (λ after. IsNarrow next.now (IsDeclared next.now) × AreClashes next.now after)) }
{
    let mut search = Search::new(alloc, next);
    if !search.is_narrow() {
        return Ok(None);
    }
    let after = all_clashes_after(alloc, spec, clashes, parts, next, &mut search)?;
    Ok(Some(after))
}

// The triples in conflict, by a search of the specification.
fn all_clashes_after(
    alloc: Global,
    spec: &Spec,
    clashes: &[Clash],
    parts: &[Candidate],
    next: &Spec,
    search: &mut Search,
) -> Result<List<Clash>, AllocError>
    requires clashes { AreClashes spec.now clashes.now }
    requires leads { next.now ≡ applied spec.now parts.now }
    requires of { search.old ≡ next.now }
    ensures { IfOk result (AreClashes next.now) }
{
    let judged = judged_clauses(spec, next);
    let mut found = List::new(alloc);
    for place in 0..action_count(next) {
        let left = action_at(next, place);
        push_clashes_of_left(
            alloc, spec, clashes, parts, next, &judged, search, left, &mut found,
        )?;
    }
    Ok(found)
}

// Appends those with this action on the left.
fn push_clashes_of_left(
    alloc: Global,
    spec: &Spec,
    clashes: &[Clash],
    parts: &[Candidate],
    next: &Spec,
    judged: &[bool; 32],
    search: &mut Search,
    left: Action,
    found: &mut List<Clash>,
) -> Result<(), AllocError>
    requires clashes { AreClashes spec.now clashes.now }
    requires leads { next.now ≡ applied spec.now parts.now }
    requires judged { AreJudged spec.now next.now judged.now }
    requires of { search.old ≡ next.now }
    requires left { IsAction next.now left }
    ensures same { search.new ≡ search.old }
    ensures gains { OnOk result (Gains (IsClash next.now) (clashes_of_left next.now left) found.old found.new) }
{
    for place in 0..action_count(next) {
        let right = action_at(next, place);
        push_clashes_of_pair(
            alloc, spec, clashes, parts, next, judged, search, left, right, found,
        )?;
    }
    Ok(())
}

// Appends those of two actions, in this order.
fn push_clashes_of_pair(
    alloc: Global,
    spec: &Spec,
    clashes: &[Clash],
    parts: &[Candidate],
    next: &Spec,
    judged: &[bool; 32],
    search: &mut Search,
    left: Action,
    right: Action,
    found: &mut List<Clash>,
) -> Result<(), AllocError>
    requires clashes { AreClashes spec.now clashes.now }
    requires leads { next.now ≡ applied spec.now parts.now }
    requires judged { AreJudged spec.now next.now judged.now }
    requires of { search.old ≡ next.now }
    requires left { IsAction next.now left }
    requires right { IsAction next.now right }
    ensures same { search.new ≡ search.old }
    ensures gains { OnOk result (Gains (IsClash next.now) (clashes_of_pair next.now left right) found.old found.new) }
{
    spec_is_fit(next);
    for number in 0..next.clauses().len() as u8 {
        push_clash(
            alloc, spec, clashes, parts, next, judged, search, left, right, number, found,
        )?;
    }
    Ok(())
}

// Appends the triple, where the two conflict on the clause.
fn push_clash(
    alloc: Global,
    spec: &Spec,
    clashes: &[Clash],
    parts: &[Candidate],
    next: &Spec,
    judged: &[bool; 32],
    search: &mut Search,
    left: Action,
    right: Action,
    number: u8,
    found: &mut List<Clash>,
) -> Result<(), AllocError>
    requires clashes { AreClashes spec.now clashes.now }
    requires leads { next.now ≡ applied spec.now parts.now }
    requires judged { AreJudged spec.now next.now judged.now }
    requires of { search.old ≡ next.now }
    requires left { IsAction next.now left }
    requires right { IsAction next.now right }
    requires clause { number < length next.now.clauses }
    ensures same { search.new ≡ search.old }
    ensures gains { OnOk result (Gains (IsClash next.now) (clash left right number ∷ []) found.old found.new) }
{
    let is_clash = is_clash_after(
        alloc, spec, clashes, parts, next, judged, search, left, right, number,
    )?;
    if !is_clash {
        return Ok(());
    }
    found.push(Clash {
        left,
        right,
        clause: number,
    })
}

// Whether two actions conflict on the clause afterwards. It is known from before where neither is touched and the clause
// is judged the same.
fn is_clash_after(
    alloc: Global,
    spec: &Spec,
    clashes: &[Clash],
    parts: &[Candidate],
    next: &Spec,
    judged: &[bool; 32],
    search: &mut Search,
    left: Action,
    right: Action,
    number: u8,
) -> Result<bool, AllocError>
    requires clashes { AreClashes spec.now clashes.now }
    requires leads { next.now ≡ applied spec.now parts.now }
    requires judged { AreJudged spec.now next.now judged.now }
    requires of { search.old ≡ next.now }
    requires left { IsAction next.now left }
    requires right { IsAction next.now right }
    requires clause { number < length next.now.clauses }
    ensures same { search.new ≡ search.old }
    ensures found { IfOk result (λ found. MatchBool found (Conflict next.now left right number) (Conflict next.now left right number → ⊥)) }
{
    spec_is_fit(next);
    conflicts_are_local();
    if is_untouched(parts, left) && is_untouched(parts, right) && judged[number as usize] {
        return Ok(is_clash(spec, clashes, left, right, number));
    }
    search.has_conflict(alloc, left, right, number)
}

// Of each clause, in its place, whether it is judged the same in both specifications.
fn judged_clauses(spec: &Spec, next: &Spec) -> [bool; 32]
    ensures { AreJudged spec.now next.now result }
{
    spec_is_fit(spec);
    let mut judged = [false; 32];
    for (place, clause) in spec.clauses().as_slice().iter().enumerate() {
        judged[place] = is_judged_same(spec, next, clause);
    }
    judged
}

// Whether each literal of the clause wins in both specifications or in neither, and can be falsified in both or in
// neither.
fn is_judged_same(spec: &Spec, next: &Spec, clause: &Clause) -> bool
    ensures { result ≡ list_all (same_judgement spec.now next.now) clause.now.literals }
{
    clause
        .literals
        .as_slice()
        .iter()
        .all(|literal| same_judgement(spec, next, literal))
}

fn same_judgement(spec: &Spec, next: &Spec, literal: &Literal) -> bool
    ensures { result ≡ same_judgement spec.now next.now literal.now }
{
    same_kind(wins(next, literal), wins(spec, literal))
        && same_kind(
            can_be_falsified(next, literal),
            can_be_falsified(spec, literal),
        )
}

// Whether the candidates add no effect to the action.
fn is_untouched(parts: &[Candidate], action: Action) -> bool
    ensures { result ≡ is_untouched parts.now action }
{
    match action {
        Action::Op(number) => are_elsewhere(parts, number),
        Action::Drop(_) => true,
    }
}

fn are_elsewhere(parts: &[Candidate], number: u8) -> bool
    ensures { result ≡ list_all (leaves_alone number) parts.now }
{
    parts.iter().all(|part| leaves_alone(number, part))
}

fn leaves_alone(number: u8, part: &Candidate) -> bool
    ensures { result ≡ leaves_alone number part.now }
{
    match part {
        Candidate::Adds { op, .. } => *op != number,
        Candidate::Flips { .. } => true,
    }
}

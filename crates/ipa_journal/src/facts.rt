//! Facts and lists of facts, from the parts of a line.
ghost use Rattle.std.specs.Prelude.{◌≡◌, ◌<◌, IfOk, MatchOption, None, Some};
ghost use Rattle.ipa_journal.specs.Meaning.{fact_in, fact_of, facts_in, is_empty_list, is_past, predicate_named, risen, some_facts, state_in, value_at, values_in};

use crate::elements::predicate_sorts;
use crate::keywords::Keyword;
use crate::lookups::{Elements, predicate_named};
use crate::parts::{Part, is_key};
use ipa_logic::{Fact, State};
use ipa_spec::{Name, Spec};
use std::alloc::{AllocError, Global};

/// The element that a place holds.
fn value_at(
    elements: &Elements,
    sorts: &[Option<u8>; 4],
    names: &[Name],
    place: usize,
) -> Option<u16>
    requires { place < 4 }
    ensures { result ≡ value_at elements.now sorts.now names.now place }
{
    match (sorts[place], names.get(place)) {
        (None, None) => Some(0),
        (None, Some(_)) => None,
        (Some(_), None) => None,
        (Some(sort), Some(name)) => elements.number(sort, name),
    }
}

/// The elements that names mean in four places.
pub(crate) fn values_in(
    elements: &Elements,
    sorts: &[Option<u8>; 4],
    names: &[Name],
) -> Option<[u16; 4]>
    ensures { result ≡ values_in elements.now sorts.now names.now }
{
    if names.len() > 4 {
        return None;
    }
    let first = value_at(elements, sorts, names, 0)?;
    let second = value_at(elements, sorts, names, 1)?;
    let third = value_at(elements, sorts, names, 2)?;
    let fourth = value_at(elements, sorts, names, 3)?;
    Some([first, second, third, fourth])
}

/// The fact of a predicate.
fn fact_of(spec: &Spec, elements: &Elements, name: &Name, names: &[Name]) -> Option<Fact>
    ensures { result ≡ fact_of spec.now elements.now (predicate_named spec.now name.now) names.now }
{
    let predicate = predicate_named(spec, name)?;
    let values = values_in(elements, &predicate_sorts(spec, predicate), names)?;
    Some(Fact {
        predicate,
        args: [values[0], values[1], values[2]],
    })
}

/// The fact that a name and names in parentheses mean.
fn fact_in(spec: &Spec, elements: &Elements, first: &Part, second: &Part) -> Option<Fact>
    ensures { result ≡ fact_in spec.now elements.now first.now second.now }
{
    match (first, second) {
        (Part::Word(name), Part::Group(names)) => fact_of(spec, elements, name, names.as_slice()),
        (Part::Word(_), Part::Word(_)) => None,
        (Part::Word(_), Part::Number(_)) => None,
        (Part::Number(_), _) => None,
        (Part::Group(_), _) => None,
    }
}

/// The facts that all parts mean.
fn facts_in(
    alloc: Global,
    spec: &Spec,
    elements: &Elements,
    parts: &[Part],
) -> Result<Option<Vec<Fact>>, AllocError>
    ensures { IfOk result (λ found. MatchOption found (facts_in spec.now elements.now parts.now ≡ None) (λ facts. facts_in spec.now elements.now parts.now ≡ Some facts.items)) }
{
    let mut facts = Vec::new(alloc);
    let mut rest = parts;
    'facts: while let [first, later @ ..] = rest {
        let Some((second, after)) = later.split_first() else {
            return Ok(None);
        };
        let Some(fact) = fact_in(spec, elements, first, second) else {
            return Ok(None);
        };
        facts.push(fact)?;
        rest = after;
    }
    Ok(Some(facts))
}

/// The state of these facts, if they stand in order, each once.
fn risen(alloc: Global, facts: &[Fact]) -> Result<Option<State>, AllocError>
    ensures { IfOk result (λ found. found ≡ risen facts.now) }
{
    let mut state = State::new(alloc);
    let mut last = None;
    for fact in facts {
        if !is_past(last, fact) {
            return Ok(None);
        }
        state.insert(*fact)?;
        last = Some(*fact);
    }
    Ok(Some(state))
}

fn is_past(last: Option<Fact>, fact: &Fact) -> bool
    ensures { result ≡ is_past last fact.now }
{
    match last {
        None => true,
        Some(last) => last.cmp(fact).is_lt(),
    }
}

/// The state of one fact or more, if they stand in order, each once.
fn some_facts(alloc: Global, facts: &[Fact]) -> Result<Option<State>, AllocError>
    ensures { IfOk result (λ found. found ≡ some_facts facts.now) }
{
    if facts.is_empty() {
        return Ok(None);
    }
    risen(alloc, facts)
}

/// Whether this is the word for an empty list.
pub(crate) fn is_empty_list(parts: &[Part]) -> bool
    ensures { result ≡ is_empty_list parts.now }
{
    parts.len() == 1 && is_key(parts, 0, Keyword::Nothing)
}

/// A list of facts in order.
pub(crate) fn state_in(
    alloc: Global,
    spec: &Spec,
    elements: &Elements,
    parts: &[Part],
) -> Result<Option<State>, AllocError>
    ensures { IfOk result (λ found. found ≡ state_in spec.now elements.now parts.now) }
{
    if is_empty_list(parts) {
        return Ok(Some(State::new(alloc)));
    }
    match facts_in(alloc, spec, elements, parts)? {
        Some(facts) => some_facts(alloc, &facts),
        None => Ok(None),
    }
}

//! What is said with one more setup line, by numbers.
ghost use Rattle.std.specs.Prelude.{◌≡◌, ◌-◌, ◌<◌, ◌≤◌, ◌++◌, [], ◌∷◌, false, IfOk, IfSome, length, map, slice_index_or};
ghost use Rattle.std.specs.List.{zip};
ghost use Rattle.ipa_spec.specs.Faults.{has_repeat};
ghost use Rattle.ipa_names.specs.Naming.{number_in, with_last};
ghost use Rattle.ipa_names.specs.Meaning.{three, predicate_number};
ghost use Rattle.ipa_reader.specs.Arrangements.{elements_of, with_elements, element_number, element_numbers, four, operation_number, fact_said, do_said, wanted_number, three_wanted, show_said, with_request, nothing_arranged, with_arrangement};
ghost use Rattle.ipa_reader.specs.Soundness.{IsWithinElements, NamesReplica, NamesNew};

use crate::element_lists::with_elements;
use crate::elements::{element_number, parameter_sorts};
use crate::names::Names;
use crate::sessions::SessionWork;
use crate::standing::Arranged;
use ipa_forms::Form;
use ipa_logic::{Fact, Request};
use ipa_names::{Declared, ending_with, places_of, predicate_number, same_name};
use ipa_spec::{List, Name};
use std::alloc::{AllocError, Global};

/// What no line says.
pub(crate) fn nothing_arranged(alloc: Global) -> Arranged
    ensures { result ≡ nothing_arranged }
{
    Arranged {
        elements: List::new(alloc),
        facts: List::new(alloc),
        replicas: 1,
        sessions: List::new(alloc),
    }
}

/// The numbers of elements in the places of these sorts.
fn element_numbers(
    alloc: Global,
    declared: &Declared,
    elements: &List<Names>,
    sorts: &[Name],
    names: &[Name],
) -> Result<Vec<u16>, AllocError>
    requires { IsWithinElements elements.now }
    ensures { IfOk result (λ numbers. numbers.items ≡ element_numbers declared.now elements.now sorts.now names.now) }
{
    names
        .iter()
        .zip(sorts.iter())
        .map(|(name, sort)| element_number(declared, elements, sort, name) as u16)
        .collect(alloc)
}

/// The number in a place, and 0 past the end.
fn number_at(numbers: &[u16], place: usize) -> u16
    ensures { result ≡ slice_index_or numbers.now place 0 }
{
    match numbers.get(place) {
        Some(number) => *number,
        None => 0,
    }
}

/// The first three numbers.
fn three(numbers: &[u16]) -> [u16; 3]
    ensures { result ≡ three numbers.now }
{
    [
        number_at(numbers, 0),
        number_at(numbers, 1),
        number_at(numbers, 2),
    ]
}

/// The first four numbers.
fn four(numbers: &[u16]) -> [u16; 4]
    ensures { result ≡ four numbers.now }
{
    [
        number_at(numbers, 0),
        number_at(numbers, 1),
        number_at(numbers, 2),
        number_at(numbers, 3),
    ]
}

/// The place of an operation among the declared ones.
fn operation_place(declared: &Declared, name: &Name) -> Option<usize>
    ensures value { result ≡ number_in (map (λ o. o.name) declared.now.operations) name.now }
    ensures within { IfSome result (λ place. place < length declared.now.operations) }
{
    declared
        .operations
        .as_slice()
        .iter()
        .map(|operation| operation.name)
        .position(|other| same_name(&other, name))
}

/// The number of an operation.
fn operation_number(declared: &Declared, name: &Name) -> u8
    requires { length declared.now.operations ≤ 32 }
    ensures { result ≡ operation_number declared.now name.now }
{
    match operation_place(declared, name) {
        Some(place) => place as u8,
        None => declared.operations.len() as u8,
    }
}

/// The fact that a `base` line gives.
fn fact_said(
    alloc: Global,
    declared: &Declared,
    elements: &List<Names>,
    predicate: &Name,
    names: &[Name],
) -> Result<Fact, AllocError>
    requires predicates { length declared.now.predicates ≤ 32 }
    requires elements { IsWithinElements elements.now }
    ensures { IfOk result (λ fact. fact ≡ fact_said declared.now elements.now predicate.now names.now) }
{
    let numbers = element_numbers(
        alloc,
        declared,
        elements,
        places_of(declared, predicate),
        names,
    )?;
    Ok(Fact {
        predicate: predicate_number(declared, predicate),
        args: three(&numbers),
    })
}

/// The request of a `do` line.
fn do_said(
    alloc: Global,
    declared: &Declared,
    elements: &List<Names>,
    operation: &Name,
    names: &[Name],
) -> Result<Request, AllocError>
    requires operations { length declared.now.operations ≤ 32 }
    requires elements { IsWithinElements elements.now }
    ensures { IfOk result (λ asked. asked ≡ do_said declared.now elements.now operation.now names.now) }
{
    let sorts = parameter_sorts(alloc, declared, operation)?;
    let numbers = element_numbers(alloc, declared, elements, &sorts, names)?;
    Ok(Request::Do {
        op: operation_number(declared, operation),
        args: four(&numbers),
    })
}

/// The number of the element wanted in a place, and none for `*`.
fn wanted_number(
    declared: &Declared,
    elements: &List<Names>,
    wanted: &Option<Name>,
    sort: &Name,
) -> Option<u16>
    requires { IsWithinElements elements.now }
    ensures { result ≡ wanted_number declared.now elements.now (wanted.now, sort.now) }
{
    match wanted {
        Some(name) => Some(element_number(declared, elements, sort, name) as u16),
        None => None,
    }
}

/// The numbers of the elements wanted in the places of these sorts.
fn wanted_numbers(
    alloc: Global,
    declared: &Declared,
    elements: &List<Names>,
    sorts: &[Name],
    places: &[Option<Name>],
) -> Result<Vec<Option<u16>>, AllocError>
    requires { IsWithinElements elements.now }
    ensures { IfOk result (λ numbers. numbers.items ≡ map (wanted_number declared.now elements.now) (zip places.now sorts.now)) }
{
    places
        .iter()
        .zip(sorts.iter())
        .map(|(wanted, sort)| wanted_number(declared, elements, wanted, sort))
        .collect(alloc)
}

/// What is wanted in a place, and nothing past the end.
fn wanted_at(numbers: &[Option<u16>], place: usize) -> Option<u16>
    ensures { result ≡ slice_index_or numbers.now place None }
{
    match numbers.get(place) {
        Some(number) => *number,
        None => None,
    }
}

/// The request of a `show` line.
fn show_said(
    alloc: Global,
    declared: &Declared,
    elements: &List<Names>,
    predicate: &Name,
    places: &[Option<Name>],
) -> Result<Request, AllocError>
    requires predicates { length declared.now.predicates ≤ 32 }
    requires elements { IsWithinElements elements.now }
    ensures { IfOk result (λ asked. asked ≡ show_said declared.now elements.now predicate.now places.now) }
{
    let numbers = wanted_numbers(
        alloc,
        declared,
        elements,
        places_of(declared, predicate),
        places,
    )?;
    Ok(Request::Show {
        predicate: predicate_number(declared, predicate),
        places: [
            wanted_at(&numbers, 0),
            wanted_at(&numbers, 1),
            wanted_at(&numbers, 2),
        ],
    })
}

/// A session with one more request.
fn session_with_request(mut work: SessionWork, asked: Request) -> Result<SessionWork, AllocError>
    ensures { IfOk result (λ now. now ≡ with_request asked work) }
{
    work.requests.push(asked)?;
    Ok(work)
}

/// One more request of the session declared last.
fn with_request(
    sessions: List<SessionWork>,
    asked: Request,
) -> Result<List<SessionWork>, AllocError>
    ensures { IfOk result (λ now. now ≡ with_last (with_request asked) sessions) }
{
    let mut items = sessions.into_vec();
    match items.pop() {
        Some(last) => {
            let grown = session_with_request(last, asked)?;
            let all = ending_with(items, grown)?;
            Ok(all)
        }
        None => Ok(List::from_vec(items)),
    }
}

/// One more fact of the base.
fn with_fact(mut arranged: Arranged, fact: Fact) -> Result<Arranged, AllocError>
    ensures { IfOk result (λ now. now ≡ record arranged { facts = arranged.facts ++ fact ∷ [] }) }
{
    arranged.facts.push(fact)?;
    Ok(arranged)
}

/// One more session, at this replica, counted from 1.
fn with_session(alloc: Global, mut arranged: Arranged, number: u32) -> Result<Arranged, AllocError>
    requires some { 0 < number }
    requires within { number ≤ 8 }
    ensures { IfOk result (λ now. now ≡ record arranged { sessions = arranged.sessions ++ record { replica = number - 1; requests = [] } ∷ [] }) }
{
    let replica = (number - 1) as u8;
    arranged.sessions.push(SessionWork {
        replica,
        requests: List::new(alloc),
    })?;
    Ok(arranged)
}

/// What is said with one more `base` line.
fn with_base(
    alloc: Global,
    declared: &Declared,
    arranged: Arranged,
    predicate: &Name,
    names: &[Name],
) -> Result<Arranged, AllocError>
    requires predicates { length declared.now.predicates ≤ 32 }
    requires elements { IsWithinElements arranged.elements }
    ensures { IfOk result (λ now. now ≡ record arranged { facts = arranged.facts ++ fact_said declared.now arranged.elements predicate.now names.now ∷ [] }) }
{
    let fact = fact_said(alloc, declared, &arranged.elements, predicate, names)?;
    with_fact(arranged, fact)
}

/// What is said with one more request.
fn with_asked(arranged: Arranged, asked: Request) -> Result<Arranged, AllocError>
    ensures { IfOk result (λ now. now ≡ record arranged { sessions = with_last (with_request asked) arranged.sessions }) }
{
    Ok(Arranged {
        sessions: with_request(arranged.sessions, asked)?,
        ..arranged
    })
}

/// What is said with one more `do` line.
fn with_do(
    alloc: Global,
    declared: &Declared,
    arranged: Arranged,
    operation: &Name,
    names: &[Name],
) -> Result<Arranged, AllocError>
    requires operations { length declared.now.operations ≤ 32 }
    requires elements { IsWithinElements arranged.elements }
    ensures { IfOk result (λ now. now ≡ record arranged { sessions = with_last (with_request (do_said declared.now arranged.elements operation.now names.now)) arranged.sessions }) }
{
    let asked = do_said(alloc, declared, &arranged.elements, operation, names)?;
    with_asked(arranged, asked)
}

/// What is said with one more `show` line.
fn with_show(
    alloc: Global,
    declared: &Declared,
    arranged: Arranged,
    predicate: &Name,
    places: &[Option<Name>],
) -> Result<Arranged, AllocError>
    requires predicates { length declared.now.predicates ≤ 32 }
    requires elements { IsWithinElements arranged.elements }
    ensures { IfOk result (λ now. now ≡ record arranged { sessions = with_last (with_request (show_said declared.now arranged.elements predicate.now places.now)) arranged.sessions }) }
{
    let asked = show_said(alloc, declared, &arranged.elements, predicate, places)?;
    with_asked(arranged, asked)
}

/// What is said with more elements of a sort.
fn with_more_elements(
    alloc: Global,
    declared: &Declared,
    arranged: Arranged,
    sort: &Name,
    names: &[Name],
) -> Result<Arranged, AllocError>
    requires { has_repeat (λ name. name) (elements_of declared.now arranged.elements sort.now ++ names.now) ≡ false }
    ensures { IfOk result (λ now. now ≡ record arranged { elements = with_elements declared.now arranged.elements sort.now names.now }) }
{
    Ok(Arranged {
        elements: with_elements(alloc, declared, arranged.elements, sort, names)?,
        ..arranged
    })
}

/// What is said with this line behind the others.
pub(crate) fn with_arrangement(
    alloc: Global,
    declared: &Declared,
    arranged: Arranged,
    line: &Form,
) -> Result<Arranged, AllocError>
    requires predicates { length declared.now.predicates ≤ 32 }
    requires operations { length declared.now.operations ≤ 32 }
    requires elements { IsWithinElements arranged.elements }
    requires replica { NamesReplica line.now }
    requires new { NamesNew declared.now arranged line.now }
    ensures { IfOk result (λ now. now ≡ with_arrangement declared.now arranged line.now) }
{
    match line {
        Form::Const { constant } => with_more_elements(
            alloc,
            declared,
            arranged,
            &constant.sort,
            &[constant.name],
        ),
        Form::Elem { sort, elements } => {
            with_more_elements(alloc, declared, arranged, sort, elements.as_slice())
        }
        Form::Base {
            predicate,
            elements,
        } => with_base(alloc, declared, arranged, predicate, elements.as_slice()),
        Form::Replicas { number } => Ok(Arranged {
            replicas: *number,
            ..arranged
        }),
        Form::Session { number } => with_session(alloc, arranged, *number),
        Form::Do {
            operation,
            elements,
        } => with_do(alloc, declared, arranged, operation, elements.as_slice()),
        Form::Show { predicate, places } => {
            with_show(alloc, declared, arranged, predicate, places.as_slice())
        }
        _ => Ok(arranged),
    }
}

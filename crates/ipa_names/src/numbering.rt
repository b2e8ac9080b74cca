//! The specification that is declared, by numbers in place of names.
ghost use Rattle.std.specs.Prelude.{◌≡◌, ◌<◌, ◌≤◌, ◌∷◌, List, IfOk, IfSome, length, map, slice_get, slice_index_or};
ghost use Rattle.ipa_spec.specs.declared.names.Name.{Name};
ghost use Rattle.ipa_spec.specs.declared.constants.Term.TheVariants.{Var as Variable};
ghost use Rattle.ipa_spec.specs.declared.operations.Arg.TheVariants.{Any};
ghost use Rattle.ipa_names.specs.Naming.{number_in};
ghost use Rattle.ipa_names.specs.Meaning.{sort_number, predicate_of, var_of, term_of, term_arg, three_terms, atom_of, literal_of, clause_of, arg_of, three_args, effect_of, operation_of, three, predicate_number};
ghost use Rattle.ipa_names.specs.Soundness.{IsSound};

use crate::constants::constant_number;
use crate::declared::{ClauseLine, Declared, EffectLine, OperationLines, PredicateLine};
use crate::naming::{number_or_count, same_name};
use ipa_forms::{AtomForm, LiteralForm, Typed};
use ipa_spec::{Arg, Atom, Clause, Effect, List, Literal, Name, Operation, Predicate, Term, Var};
use std::alloc::{AllocError, Global};

/// The number of a sort.
pub(crate) fn sort_number(declared: &Declared, sort: &Name) -> u8
    requires { length declared.now.sorts ≤ 8 }
    ensures { result ≡ sort_number declared.now sort.now }
{
    number_or_count(declared.sorts.as_slice(), sort) as u8
}

/// The place of a predicate among the declared ones.
fn predicate_place(declared: &Declared, name: &Name) -> Option<usize>
    ensures value { result ≡ number_in (map (λ p. p.name) declared.now.predicates) name.now }
    ensures within { IfSome result (λ place. place < length declared.now.predicates) }
{
    declared
        .predicates
        .as_slice()
        .iter()
        .map(|predicate| predicate.name)
        .position(|other| same_name(&other, name))
}

/// The number of a predicate: the count of the predicates where it is not declared.
pub fn predicate_number(declared: &Declared, name: &Name) -> u8
    requires { length declared.now.predicates ≤ 32 }
    ensures { result ≡ predicate_number declared.now name.now }
{
    match predicate_place(declared, name) {
        Some(place) => place as u8,
        None => declared.predicates.len() as u8,
    }
}

/// The place of a variable in its list.
fn variable_place(scope: &[Typed], name: &Name) -> Option<usize>
    ensures value { result ≡ number_in (map (λ v. v.name) scope.now) name.now }
    ensures within { IfSome result (λ place. place < length scope.now) }
{
    scope
        .iter()
        .map(|variable| variable.name)
        .position(|other| same_name(&other, name))
}

/// The number in a place, and 0 past the end.
fn number_at(numbers: &[u8], place: usize) -> u8
    ensures { result ≡ slice_index_or numbers.now place 0 }
{
    match numbers.get(place) {
        Some(number) => *number,
        None => 0,
    }
}

/// The first three numbers.
fn three(numbers: &[u8]) -> [u8; 3]
    ensures { result ≡ three numbers.now }
{
    [
        number_at(numbers, 0),
        number_at(numbers, 1),
        number_at(numbers, 2),
    ]
}

/// The numbers of sorts.
fn sort_numbers(alloc: Global, declared: &Declared, sorts: &[Name]) -> Result<Vec<u8>, AllocError>
    requires { length declared.now.sorts ≤ 8 }
    ensures { IfOk result (λ numbers. numbers.items ≡ map (sort_number declared.now) sorts.now) }
{
    sorts
        .iter()
        .map(|sort| sort_number(declared, sort))
        .collect(alloc)
}

/// A declared predicate.
fn predicate_of(
    alloc: Global,
    declared: &Declared,
    predicate: &PredicateLine,
) -> Result<Predicate, AllocError>
    requires sorts { length declared.now.sorts ≤ 8 }
    requires places { length predicate.now.sorts ≤ 3 }
    ensures { IfOk result (λ predicate_is. predicate_is ≡ predicate_of declared.now predicate.now) }
{
    let numbers = sort_numbers(alloc, declared, predicate.sorts.as_slice())?;
    Ok(Predicate {
        name: predicate.name,
        arity: predicate.sorts.len() as u8,
        sorts: three(&numbers),
        rule: predicate.rule,
    })
}

/// A list of variables.
fn vars_of(alloc: Global, declared: &Declared, vars: &[Typed]) -> Result<Vec<Var>, AllocError>
    requires { length declared.now.sorts ≤ 8 }
    ensures { IfOk result (λ all. all.items ≡ map (var_of declared.now) vars.now) }
{
    vars.iter()
        .map(|variable| Var {
            name: variable.name,
            sort: sort_number(declared, &variable.sort),
        })
        .collect(alloc)
}

/// What a name means in a place of an atom, or on a side of an equality: the variable of the list, or else the
/// constant.
fn term_of(declared: &Declared, scope: &[Typed], name: &Name) -> Term
    requires constants { length declared.now.constants ≤ 32 }
    requires scope { length scope.now ≤ 4 }
    ensures { result ≡ term_of declared.now scope.now name.now }
{
    match variable_place(scope, name) {
        Some(place) => Term::Var(place as u8),
        None => Term::Const(constant_number(declared, name)),
    }
}

/// What stands in the places of an atom.
fn terms_of(
    alloc: Global,
    declared: &Declared,
    scope: &[Typed],
    names: &[Name],
) -> Result<Vec<Term>, AllocError>
    requires constants { length declared.now.constants ≤ 32 }
    requires scope { length scope.now ≤ 4 }
    ensures { IfOk result (λ terms. terms.items ≡ map (term_of declared.now scope.now) names.now) }
{
    names
        .iter()
        .map(|name| term_of(declared, scope, name))
        .collect(alloc)
}

/// The term in a place, and the first variable past the end.
fn term_at(terms: &[Term], place: usize) -> Term
    ensures { result ≡ slice_index_or terms.now place (Variable 0) }
{
    match terms.get(place) {
        Some(term) => *term,
        None => Term::Var(0),
    }
}

/// The first three terms, and the first variable past the end.
fn three_terms(terms: &[Term]) -> [Term; 3]
    ensures { result ≡ three_terms terms.now }
{
    [term_at(terms, 0), term_at(terms, 1), term_at(terms, 2)]
}

/// An atom.
fn atom_of(
    alloc: Global,
    declared: &Declared,
    scope: &[Typed],
    atom: &AtomForm,
) -> Result<Atom, AllocError>
    requires predicates { length declared.now.predicates ≤ 32 }
    requires constants { length declared.now.constants ≤ 32 }
    requires scope { length scope.now ≤ 4 }
    ensures { IfOk result (λ atom_is. atom_is ≡ atom_of declared.now scope.now atom.now) }
{
    let terms = terms_of(alloc, declared, scope, atom.args.as_slice())?;
    Ok(Atom {
        predicate: predicate_number(declared, &atom.predicate),
        args: three_terms(&terms),
    })
}

/// A literal.
fn literal_of(
    alloc: Global,
    declared: &Declared,
    scope: &[Typed],
    literal: &LiteralForm,
) -> Result<Literal, AllocError>
    requires predicates { length declared.now.predicates ≤ 32 }
    requires constants { length declared.now.constants ≤ 32 }
    requires scope { length scope.now ≤ 4 }
    ensures { IfOk result (λ literal_is. literal_is ≡ literal_of declared.now scope.now literal.now) }
{
    match literal {
        LiteralForm::Holds(atom) => Ok(Literal::Holds(atom_of(alloc, declared, scope, atom)?)),
        LiteralForm::Fails(atom) => Ok(Literal::Fails(atom_of(alloc, declared, scope, atom)?)),
        LiteralForm::Same(one, other) => {
            Ok(Literal::Same(
                term_of(declared, scope, one),
                term_of(declared, scope, other),
            ))
        }
        LiteralForm::Differ(one, other) => {
            Ok(Literal::Differ(
                term_of(declared, scope, one),
                term_of(declared, scope, other),
            ))
        }
    }
}

/// Literals.
fn literals_of(
    alloc: Global,
    declared: &Declared,
    scope: &[Typed],
    literals: &[LiteralForm],
) -> Result<List<Literal>, AllocError>
    requires predicates { length declared.now.predicates ≤ 32 }
    requires constants { length declared.now.constants ≤ 32 }
    requires scope { length scope.now ≤ 4 }
    ensures { IfOk result (λ all. all ≡ map (literal_of declared.now scope.now) literals.now) }
{
    let mut all = List::new(alloc);
    for literal in literals {
        all.push(literal_of(alloc, declared, scope, literal)?)?;
    }
    Ok(all)
}

/// A declared clause.
fn clause_of(alloc: Global, declared: &Declared, clause: &ClauseLine) -> Result<Clause, AllocError>
    requires sorts { length declared.now.sorts ≤ 8 }
    requires predicates { length declared.now.predicates ≤ 32 }
    requires constants { length declared.now.constants ≤ 32 }
    requires variables { length clause.now.vars ≤ 4 }
    ensures { IfOk result (λ clause_is. clause_is ≡ clause_of declared.now clause.now) }
{
    let vars = vars_of(alloc, declared, clause.vars.as_slice())?;
    let literals = literals_of(
        alloc,
        declared,
        clause.vars.as_slice(),
        clause.literals.as_slice(),
    )?;
    Ok(Clause {
        name: clause.name,
        vars: List::from_vec(vars),
        literals,
    })
}

/// The argument that a term is.
fn term_arg(term: Term) -> Arg
    ensures { result ≡ term_arg term }
{
    match term {
        Term::Var(variable) => Arg::Var(variable),
        Term::Const(constant) => Arg::Const(constant),
    }
}

/// An argument of an effect.
fn arg_of(declared: &Declared, scope: &[Typed], argument: &Option<Name>) -> Arg
    requires constants { length declared.now.constants ≤ 32 }
    requires scope { length scope.now ≤ 4 }
    ensures { result ≡ arg_of declared.now scope.now argument.now }
{
    match argument {
        Some(name) => term_arg(term_of(declared, scope, name)),
        None => Arg::Any,
    }
}

/// The arguments of an effect.
fn args_of(
    alloc: Global,
    declared: &Declared,
    scope: &[Typed],
    arguments: &[Option<Name>],
) -> Result<Vec<Arg>, AllocError>
    requires constants { length declared.now.constants ≤ 32 }
    requires scope { length scope.now ≤ 4 }
    ensures { IfOk result (λ args. args.items ≡ map (arg_of declared.now scope.now) arguments.now) }
{
    arguments
        .iter()
        .map(|argument| arg_of(declared, scope, argument))
        .collect(alloc)
}

/// The argument in a place, and `*` past the end.
fn arg_at(args: &[Arg], place: usize) -> Arg
    ensures { result ≡ slice_index_or args.now place Any }
{
    match args.get(place) {
        Some(arg) => *arg,
        None => Arg::Any,
    }
}

/// An effect.
fn effect_of(
    alloc: Global,
    declared: &Declared,
    scope: &[Typed],
    effect: &EffectLine,
) -> Result<Effect, AllocError>
    requires predicates { length declared.now.predicates ≤ 32 }
    requires constants { length declared.now.constants ≤ 32 }
    requires scope { length scope.now ≤ 4 }
    ensures { IfOk result (λ effect_is. effect_is ≡ effect_of declared.now scope.now effect.now) }
{
    let args = args_of(alloc, declared, scope, effect.args.as_slice())?;
    Ok(Effect {
        add: effect.add,
        predicate: predicate_number(declared, &effect.predicate),
        args: [arg_at(&args, 0), arg_at(&args, 1), arg_at(&args, 2)],
    })
}

/// Effects.
pub(crate) fn effects_of(
    alloc: Global,
    declared: &Declared,
    scope: &[Typed],
    effects: &[EffectLine],
) -> Result<List<Effect>, AllocError>
    requires predicates { length declared.now.predicates ≤ 32 }
    requires constants { length declared.now.constants ≤ 32 }
    requires scope { length scope.now ≤ 4 }
    ensures { IfOk result (λ all. all ≡ map (effect_of declared.now scope.now) effects.now) }
{
    let mut all = List::new(alloc);
    for effect in effects {
        all.push(effect_of(alloc, declared, scope, effect)?)?;
    }
    Ok(all)
}

/// A declared operation.
fn operation_of(
    alloc: Global,
    declared: &Declared,
    operation: &OperationLines,
) -> Result<Operation, AllocError>
    requires sorts { length declared.now.sorts ≤ 8 }
    requires predicates { length declared.now.predicates ≤ 32 }
    requires constants { length declared.now.constants ≤ 32 }
    requires parameters { length operation.now.params ≤ 4 }
    ensures { IfOk result (λ operation_is. operation_is ≡ operation_of declared.now operation.now) }
{
    let params = vars_of(alloc, declared, operation.params.as_slice())?;
    let needs = literals_of(
        alloc,
        declared,
        operation.params.as_slice(),
        operation.needs.as_slice(),
    )?;
    let effects = effects_of(
        alloc,
        declared,
        operation.params.as_slice(),
        operation.effects.as_slice(),
    )?;
    Ok(Operation {
        name: operation.name,
        params: List::from_vec(params),
        needs,
        effects,
    })
}

/// The declared predicates.
pub(crate) fn predicates_of(
    alloc: Global,
    declared: &Declared,
) -> Result<List<Predicate>, AllocError>
    requires { IsSound declared.now }
    ensures { IfOk result (λ all. all ≡ map (predicate_of declared.now) declared.now.predicates) }
{
    let mut all = List::new(alloc);
    for predicate in declared.predicates.as_slice() {
        all.push(predicate_of(alloc, declared, predicate)?)?;
    }
    Ok(all)
}

/// The declared clauses.
pub(crate) fn clauses_of(alloc: Global, declared: &Declared) -> Result<List<Clause>, AllocError>
    requires { IsSound declared.now }
    ensures { IfOk result (λ all. all ≡ map (clause_of declared.now) declared.now.clauses) }
{
    let mut all = List::new(alloc);
    for clause in declared.clauses.as_slice() {
        all.push(clause_of(alloc, declared, clause)?)?;
    }
    Ok(all)
}

/// The declared operations.
pub(crate) fn operations_of(
    alloc: Global,
    declared: &Declared,
) -> Result<List<Operation>, AllocError>
    requires { IsSound declared.now }
    ensures { IfOk result (λ all. all ≡ map (operation_of declared.now) declared.now.operations) }
{
    let mut all = List::new(alloc);
    for operation in declared.operations.as_slice() {
        all.push(operation_of(alloc, declared, operation)?)?;
    }
    Ok(all)
}

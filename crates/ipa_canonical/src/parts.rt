//! The forms of the lines that say the parts of a specification.
ghost use Rattle.std.specs.Prelude.{◌≡◌, IfOk, map};
ghost use Rattle.ipa_canonical.specs.Canonical.{arg_form, args_form, atom_form, bound_form, bound_vars, clause_form, const_form, effect_form, literal_form, need_form, pred_form, remove_form, term_name, typed_form};

use crate::naming::{
    arity_of, constant_name, first_of, name_at, names_at, names_of, predicate_name,
};
use ipa_forms::{AtomForm, Form, LiteralForm, Typed};
use ipa_spec::{
    Arg, Atom, Bound, Clause, Constant, Effect, List, Literal, Name, Predicate, Spec, Term, Var,
};
use std::alloc::{AllocError, Global};

/// The line of a predicate.
pub(crate) fn pred_form(
    alloc: Global,
    sorts: &[Name],
    predicate: &Predicate,
) -> Result<Form, AllocError>
    ensures { IfOk result (λ form. form ≡ pred_form sorts.now predicate.now) }
{
    let numbers = first_of(&predicate.sorts, predicate.arity);
    let names = names_at(alloc, sorts, predicate.name, numbers)?;
    Ok(Form::Pred {
        name: predicate.name,
        sorts: List::from_vec(names),
        rule: predicate.rule,
    })
}

/// The line of a constant.
pub(crate) fn const_form(sorts: &[Name], constant: &Constant) -> Form
    ensures { result ≡ const_form sorts.now constant.now }
{
    Form::Const {
        constant: Typed {
            name: constant.name,
            sort: name_at(sorts, constant.sort, constant.name),
        },
    }
}

/// Variables with the names of their sorts.
pub(crate) fn typed_forms(
    alloc: Global,
    sorts: &[Name],
    vars: &[Var],
) -> Result<Vec<Typed>, AllocError>
    ensures { IfOk result (λ all. all.items ≡ map (typed_form sorts.now) vars.now) }
{
    vars.iter()
        .map(|var| Typed {
            name: var.name,
            sort: name_at(sorts, var.sort, var.name),
        })
        .collect(alloc)
}

/// The name of what stands in a place of an atom, or on a side of an equality.
fn term_name(spec: &Spec, own: Name, vars: &[Name], term: &Term) -> Name
    ensures { result ≡ term_name spec.now own vars.now term.now }
{
    match term {
        Term::Var(number) => name_at(vars, *number, own),
        Term::Const(number) => constant_name(spec, own, *number),
    }
}

/// The names of terms.
fn term_names(
    alloc: Global,
    spec: &Spec,
    own: Name,
    vars: &[Name],
    terms: &[Term],
) -> Result<Vec<Name>, AllocError>
    ensures { IfOk result (λ all. all.items ≡ map (term_name spec.now own vars.now) terms.now) }
{
    terms
        .iter()
        .map(|term| term_name(spec, own, vars, term))
        .collect(alloc)
}

/// An atom over these variables.
fn atom_form(
    alloc: Global,
    spec: &Spec,
    own: Name,
    vars: &[Name],
    atom: &Atom,
) -> Result<AtomForm, AllocError>
    ensures { IfOk result (λ form. form ≡ atom_form spec.now own vars.now atom.now) }
{
    let terms = first_of(&atom.args, arity_of(spec.predicates(), atom.predicate));
    let args = term_names(alloc, spec, own, vars, terms)?;
    Ok(AtomForm {
        predicate: predicate_name(spec, own, atom.predicate),
        args: List::from_vec(args),
    })
}

/// A literal over these variables.
pub(crate) fn literal_form(
    alloc: Global,
    spec: &Spec,
    own: Name,
    vars: &[Name],
    literal: &Literal,
) -> Result<LiteralForm, AllocError>
    ensures { IfOk result (λ form. form ≡ literal_form spec.now own vars.now literal.now) }
{
    match literal {
        Literal::Holds(atom) => Ok(LiteralForm::Holds(atom_form(alloc, spec, own, vars, atom)?)),
        Literal::Fails(atom) => Ok(LiteralForm::Fails(atom_form(alloc, spec, own, vars, atom)?)),
        Literal::Same(one, other) => Ok(LiteralForm::Same(
            term_name(spec, own, vars, one),
            term_name(spec, own, vars, other),
        )),
        Literal::Differ(one, other) => Ok(LiteralForm::Differ(
            term_name(spec, own, vars, one),
            term_name(spec, own, vars, other),
        )),
    }
}

/// Literals over these variables.
fn literal_forms(
    alloc: Global,
    spec: &Spec,
    own: Name,
    vars: &[Name],
    literals: &[Literal],
) -> Result<List<LiteralForm>, AllocError>
    ensures { IfOk result (λ all. all ≡ map (literal_form spec.now own vars.now) literals.now) }
{
    let mut all = List::new(alloc);
    for literal in literals {
        all.push(literal_form(alloc, spec, own, vars, literal)?)?;
    }
    Ok(all)
}

/// The line of a clause.
pub(crate) fn clause_form(alloc: Global, spec: &Spec, clause: &Clause) -> Result<Form, AllocError>
    ensures { IfOk result (λ form. form ≡ clause_form spec.now clause.now) }
{
    let names = names_of(alloc, clause.vars.as_slice())?;
    let vars = typed_forms(alloc, spec.sorts().as_slice(), clause.vars.as_slice())?;
    let literals = literal_forms(alloc, spec, clause.name, &names, clause.literals.as_slice())?;
    Ok(Form::Clause {
        name: clause.name,
        vars: List::from_vec(vars),
        literals,
    })
}

/// The line of a need.
pub(crate) fn need_form(
    alloc: Global,
    spec: &Spec,
    own: Name,
    vars: &[Name],
    need: &Literal,
) -> Result<Form, AllocError>
    ensures { IfOk result (λ form. form ≡ need_form spec.now own vars.now need.now) }
{
    let literal = literal_form(alloc, spec, own, vars, need)?;
    Ok(Form::Need { literal })
}

/// An argument of an effect.
fn arg_form(spec: &Spec, own: Name, vars: &[Name], arg: &Arg) -> Option<Name>
    ensures { result ≡ arg_form spec.now own vars.now arg.now }
{
    match arg {
        Arg::Var(number) => Some(name_at(vars, *number, own)),
        Arg::Const(number) => Some(constant_name(spec, own, *number)),
        Arg::Any => None,
    }
}

/// Arguments.
fn arg_forms(
    alloc: Global,
    spec: &Spec,
    own: Name,
    vars: &[Name],
    args: &[Arg],
) -> Result<Vec<Option<Name>>, AllocError>
    ensures { IfOk result (λ all. all.items ≡ map (arg_form spec.now own vars.now) args.now) }
{
    args.iter()
        .map(|arg| arg_form(spec, own, vars, arg))
        .collect(alloc)
}

/// The arguments in the places of an effect.
pub(crate) fn args_form(
    alloc: Global,
    spec: &Spec,
    own: Name,
    vars: &[Name],
    effect: &Effect,
) -> Result<List<Option<Name>>, AllocError>
    ensures { IfOk result (λ args. args ≡ args_form spec.now own vars.now effect.now) }
{
    let args = first_of(&effect.args, arity_of(spec.predicates(), effect.predicate));
    let all = arg_forms(alloc, spec, own, vars, args)?;
    Ok(List::from_vec(all))
}

/// The line of an effect.
pub(crate) fn effect_form(
    alloc: Global,
    spec: &Spec,
    own: Name,
    vars: &[Name],
    effect: &Effect,
) -> Result<Form, AllocError>
    ensures { IfOk result (λ form. form ≡ effect_form spec.now own vars.now effect.now) }
{
    let predicate = predicate_name(spec, own, effect.predicate);
    let args = args_form(alloc, spec, own, vars, effect)?;
    if effect.add {
        Ok(Form::Add { predicate, args })
    } else {
        Ok(Form::Del { predicate, args })
    }
}

/// The line of a further remove.
pub(crate) fn remove_form(
    alloc: Global,
    spec: &Spec,
    own: Name,
    vars: &[Name],
    effect: &Effect,
) -> Result<Form, AllocError>
    ensures { IfOk result (λ form. form ≡ remove_form spec.now own vars.now effect.now) }
{
    let args = args_form(alloc, spec, own, vars, effect)?;
    Ok(Form::Drops {
        predicate: predicate_name(spec, own, effect.predicate),
        args,
    })
}

/// The variables of a bound, one for each place of its predicate.
pub(crate) fn bound_vars<'a>(spec: &Spec, bound: &'a Bound) -> &'a [Name]
    ensures { result.now ≡ bound_vars spec.now.predicates bound.now }
{
    first_of(&bound.vars, arity_of(spec.predicates(), bound.predicate))
}

/// A list of these names.
fn copied(alloc: Global, names: &[Name]) -> Result<Vec<Name>, AllocError>
    ensures { IfOk result (λ all. all.items ≡ names.now) }
{
    names.iter().copied().collect(alloc)
}

/// The line of a bound.
pub(crate) fn bound_form(alloc: Global, spec: &Spec, bound: &Bound) -> Result<Form, AllocError>
    ensures { IfOk result (λ form. form ≡ bound_form spec.now bound.now) }
{
    let vars = copied(alloc, bound_vars(spec, bound))?;
    Ok(Form::Bound {
        name: bound.name,
        predicate: predicate_name(spec, bound.name, bound.predicate),
        vars: List::from_vec(vars),
        counted: name_at(&bound.vars, bound.counted, bound.name),
        most: u32::from(bound.most),
        pick: bound.pick,
    })
}

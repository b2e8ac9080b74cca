//! What is declared with one more line.
ghost use Rattle.std.specs.Prelude.{◌≡◌, ◌++◌, [], ◌∷◌, IfOk};
ghost use Rattle.ipa_names.specs.Naming.{with_last};
ghost use Rattle.ipa_names.specs.Declarations.{nothing_declared, with_need, with_effect, with_remove, add_effect, remove_effect, with_declaration};

use crate::declared::{
    BoundLines, ClauseLine, Declared, EffectLine, OperationLines, PredicateLine,
};
use ipa_forms::{Form, LiteralForm, Typed};
use ipa_spec::{List, Name};
use std::alloc::{AllocError, Global};

/// What no line declares.
pub fn nothing_declared(alloc: Global) -> Declared
    ensures { result ≡ nothing_declared }
{
    Declared {
        sorts: List::new(alloc),
        constants: List::new(alloc),
        predicates: List::new(alloc),
        clauses: List::new(alloc),
        operations: List::new(alloc),
        bounds: List::new(alloc),
    }
}

/// One more sort.
fn with_sort(mut declared: Declared, name: Name) -> Result<Declared, AllocError>
    ensures { IfOk result (λ now. now ≡ record declared { sorts = declared.sorts ++ name ∷ [] }) }
{
    declared.sorts.push(name)?;
    Ok(declared)
}

/// One more constant.
fn with_constant(mut declared: Declared, constant: Typed) -> Result<Declared, AllocError>
    ensures { IfOk result (λ now. now ≡ record declared { constants = declared.constants ++ constant ∷ [] }) }
{
    declared.constants.push(constant)?;
    Ok(declared)
}

/// One more predicate.
fn with_predicate(mut declared: Declared, predicate: PredicateLine) -> Result<Declared, AllocError>
    ensures { IfOk result (λ now. now ≡ record declared { predicates = declared.predicates ++ predicate ∷ [] }) }
{
    declared.predicates.push(predicate)?;
    Ok(declared)
}

/// One more clause.
fn with_clause(mut declared: Declared, clause: ClauseLine) -> Result<Declared, AllocError>
    ensures { IfOk result (λ now. now ≡ record declared { clauses = declared.clauses ++ clause ∷ [] }) }
{
    declared.clauses.push(clause)?;
    Ok(declared)
}

/// One more operation, without needs and effects.
fn with_operation(
    alloc: Global,
    mut declared: Declared,
    name: Name,
    params: List<Typed>,
) -> Result<Declared, AllocError>
    ensures { IfOk result (λ now. now ≡ record declared { operations = declared.operations ++ record { name = name; params = params; needs = []; effects = [] } ∷ [] }) }
{
    declared.operations.push(OperationLines {
        name,
        params,
        needs: List::new(alloc),
        effects: List::new(alloc),
    })?;
    Ok(declared)
}

/// One more bound.
fn with_bound(mut declared: Declared, bound: BoundLines) -> Result<Declared, AllocError>
    ensures { IfOk result (λ now. now ≡ record declared { bounds = declared.bounds ++ bound ∷ [] }) }
{
    declared.bounds.push(bound)?;
    Ok(declared)
}

/// The items, and behind them one more.
pub fn ending_with<T: Drop>(mut items: Vec<T>, last: T) -> Result<List<T>, AllocError>
    ensures { IfOk result (λ now. now ≡ items.items ++ last ∷ []) }
{
    items.push(last)?;
    Ok(List::from_vec(items))
}

/// The operation with one more need.
fn operation_with_need(
    mut operation: OperationLines,
    need: LiteralForm,
) -> Result<OperationLines, AllocError>
    ensures { IfOk result (λ now. now ≡ with_need need operation) }
{
    operation.needs.push(need)?;
    Ok(operation)
}

/// The operation with one more effect.
fn operation_with_effect(
    mut operation: OperationLines,
    effect: EffectLine,
) -> Result<OperationLines, AllocError>
    ensures { IfOk result (λ now. now ≡ with_effect effect operation) }
{
    operation.effects.push(effect)?;
    Ok(operation)
}

/// The bound with one more remove.
fn bound_with_remove(mut bound: BoundLines, effect: EffectLine) -> Result<BoundLines, AllocError>
    ensures { IfOk result (λ now. now ≡ with_remove effect bound) }
{
    bound.removes.push(effect)?;
    Ok(bound)
}

/// One more need of the operation declared last.
fn with_need(
    operations: List<OperationLines>,
    need: LiteralForm,
) -> Result<List<OperationLines>, AllocError>
    ensures { IfOk result (λ now. now ≡ with_last (with_need need) operations) }
{
    let mut items = operations.into_vec();
    match items.pop() {
        Some(last) => {
            let grown = operation_with_need(last, need)?;
            let all = ending_with(items, grown)?;
            Ok(all)
        }
        None => Ok(List::from_vec(items)),
    }
}

/// One more effect of the operation declared last.
fn with_effect(
    operations: List<OperationLines>,
    effect: EffectLine,
) -> Result<List<OperationLines>, AllocError>
    ensures { IfOk result (λ now. now ≡ with_last (with_effect effect) operations) }
{
    let mut items = operations.into_vec();
    match items.pop() {
        Some(last) => {
            let grown = operation_with_effect(last, effect)?;
            let all = ending_with(items, grown)?;
            Ok(all)
        }
        None => Ok(List::from_vec(items)),
    }
}

/// One more remove of the bound declared last.
fn with_remove(bounds: List<BoundLines>, effect: EffectLine) -> Result<List<BoundLines>, AllocError>
    ensures { IfOk result (λ now. now ≡ with_last (with_remove effect) bounds) }
{
    let mut items = bounds.into_vec();
    match items.pop() {
        Some(last) => {
            let grown = bound_with_remove(last, effect)?;
            let all = ending_with(items, grown)?;
            Ok(all)
        }
        None => Ok(List::from_vec(items)),
    }
}

/// What is declared with one more need.
fn declared_with_need(declared: Declared, need: LiteralForm) -> Result<Declared, AllocError>
    ensures { IfOk result (λ now. now ≡ record declared { operations = with_last (with_need need) declared.operations }) }
{
    Ok(Declared {
        operations: with_need(declared.operations, need)?,
        ..declared
    })
}

/// What is declared with one more effect.
fn declared_with_effect(declared: Declared, effect: EffectLine) -> Result<Declared, AllocError>
    ensures { IfOk result (λ now. now ≡ record declared { operations = with_last (with_effect effect) declared.operations }) }
{
    Ok(Declared {
        operations: with_effect(declared.operations, effect)?,
        ..declared
    })
}

/// What is declared with one more remove of a bound.
fn declared_with_remove(declared: Declared, effect: EffectLine) -> Result<Declared, AllocError>
    ensures { IfOk result (λ now. now ≡ record declared { bounds = with_last (with_remove effect) declared.bounds }) }
{
    Ok(Declared {
        bounds: with_remove(declared.bounds, effect)?,
        ..declared
    })
}

/// An effect that adds.
fn added(predicate: Name, args: List<Option<Name>>) -> EffectLine
    ensures { result ≡ add_effect predicate args }
{
    EffectLine {
        add: true,
        predicate,
        args,
    }
}

/// An effect that removes.
fn removed(predicate: Name, args: List<Option<Name>>) -> EffectLine
    ensures { result ≡ remove_effect predicate args }
{
    EffectLine {
        add: false,
        predicate,
        args,
    }
}

/// What is declared with this line behind the others.
pub fn with_declaration(
    alloc: Global,
    declared: Declared,
    line: Form,
) -> Result<Declared, AllocError>
    ensures { IfOk result (λ now. now ≡ with_declaration declared line) }
{
    match line {
        Form::Sort { name } => with_sort(declared, name),
        Form::Const { constant } => with_constant(declared, constant),
        Form::Pred { name, sorts, rule } => with_predicate(
            declared,
            PredicateLine { name, sorts, rule },
        ),
        Form::Clause {
            name,
            vars,
            literals,
        } => with_clause(
            declared,
            ClauseLine {
                name,
                vars,
                literals,
            },
        ),
        Form::Op { name, params } => with_operation(alloc, declared, name, params),
        Form::Need { literal } => declared_with_need(declared, literal),
        Form::Add { predicate, args } => declared_with_effect(declared, added(predicate, args)),
        Form::Del { predicate, args } => declared_with_effect(declared, removed(predicate, args)),
        Form::Bound {
            name,
            predicate,
            vars,
            counted,
            most,
            pick,
        } => with_bound(
            declared,
            BoundLines {
                name,
                predicate,
                vars,
                counted,
                most,
                pick,
                removes: List::new(alloc),
            },
        ),
        Form::Drops { predicate, args } => declared_with_remove(declared, removed(predicate, args)),
        _ => Ok(declared),
    }
}

//! The faults of specification lines.
ghost use Rattle.std.specs.Prelude.{◌≡◌, ◌+◌, [], ◌∷◌, IfOk, map, length};
ghost use Rattle.std.specs.Option.{option_map_or};
ghost use Rattle.ipa_spec.specs.Limits.{above, size_outside};
ghost use Rattle.ipa_names.specs.Naming.{is_among, last_of};
ghost use Rattle.ipa_names.specs.Scopes.{constants_named, operation_scope, with_constants};
ghost use Rattle.ipa_names.specs.Flaws.{declaration_has, effect_has, specification_line_has};
ghost use Rattle.ipa_names.specs.Counts.{count_above, effects_above, limit_passed};

use crate::constants::constant_count;
use crate::declared::Declared;
use crate::flaws::{
    Flaw, bound_has, effect_has, literal_has, some_literal_has, some_sort_has, sort_has,
    variables_have,
};
use crate::naming::{is_among, same_name};
use crate::scopes::{bound_scope, last_bound, last_operation, operation_scope, with_constants};
use crate::variables::Variables;
use ipa_forms::{Form, LiteralForm, Typed};
use ipa_spec::{List, Name, Pick, SpecFault};
use std::alloc::{AllocError, Global};

/// A declaration of a sort.
fn sort_is_declared(flaw: Flaw, declared: &Declared, name: &Name) -> bool
    ensures { result ≡ declaration_has flaw declared.now.sorts name.now }
{
    match flaw {
        Flaw::Duplicate => is_among(declared.sorts.as_slice(), name),
        _ => false,
    }
}

/// Whether a constant has the name.
fn names_constant(declared: &Declared, name: &Name) -> bool
    ensures { result ≡ is_among (map (λ c. c.name) declared.now.constants) name.now }
{
    declared
        .constants
        .as_slice()
        .iter()
        .map(|constant| constant.name)
        .any(|other| same_name(&other, name))
}

/// A declaration of a constant.
fn constant_is_declared(flaw: Flaw, declared: &Declared, name: &Name) -> bool
    ensures { result ≡ declaration_has flaw (map (λ c. c.name) declared.now.constants) name.now }
{
    match flaw {
        Flaw::Duplicate => names_constant(declared, name),
        _ => false,
    }
}

/// Whether a predicate has the name.
fn names_predicate(declared: &Declared, name: &Name) -> bool
    ensures { result ≡ is_among (map (λ p. p.name) declared.now.predicates) name.now }
{
    declared
        .predicates
        .as_slice()
        .iter()
        .map(|predicate| predicate.name)
        .any(|other| same_name(&other, name))
}

/// A declaration of a predicate.
fn predicate_is_declared(flaw: Flaw, declared: &Declared, name: &Name) -> bool
    ensures { result ≡ declaration_has flaw (map (λ p. p.name) declared.now.predicates) name.now }
{
    match flaw {
        Flaw::Duplicate => names_predicate(declared, name),
        _ => false,
    }
}

/// Whether a clause has the name.
fn names_clause(declared: &Declared, name: &Name) -> bool
    ensures { result ≡ is_among (map (λ c. c.name) declared.now.clauses) name.now }
{
    declared
        .clauses
        .as_slice()
        .iter()
        .map(|clause| clause.name)
        .any(|other| same_name(&other, name))
}

/// A declaration of a clause.
fn clause_is_declared(flaw: Flaw, declared: &Declared, name: &Name) -> bool
    ensures { result ≡ declaration_has flaw (map (λ c. c.name) declared.now.clauses) name.now }
{
    match flaw {
        Flaw::Duplicate => names_clause(declared, name),
        _ => false,
    }
}

/// Whether an operation has the name.
fn names_operation(declared: &Declared, name: &Name) -> bool
    ensures { result ≡ is_among (map (λ o. o.name) declared.now.operations) name.now }
{
    declared
        .operations
        .as_slice()
        .iter()
        .map(|operation| operation.name)
        .any(|other| same_name(&other, name))
}

/// A declaration of an operation.
fn operation_is_declared(flaw: Flaw, declared: &Declared, name: &Name) -> bool
    ensures { result ≡ declaration_has flaw (map (λ o. o.name) declared.now.operations) name.now }
{
    match flaw {
        Flaw::Duplicate => names_operation(declared, name),
        _ => false,
    }
}

/// Whether a bound has the name.
fn names_bound(declared: &Declared, name: &Name) -> bool
    ensures { result ≡ is_among (map (λ b. b.name) declared.now.bounds) name.now }
{
    declared
        .bounds
        .as_slice()
        .iter()
        .map(|bound| bound.name)
        .any(|other| same_name(&other, name))
}

/// A declaration of a bound.
fn bound_is_declared(flaw: Flaw, declared: &Declared, name: &Name) -> bool
    ensures { result ≡ declaration_has flaw (map (λ b. b.name) declared.now.bounds) name.now }
{
    match flaw {
        Flaw::Duplicate => names_bound(declared, name),
        _ => false,
    }
}

/// What may be meant in a literal or an effect over these variables, looked up by name.
fn scope_of(alloc: Global, declared: &Declared, vars: &[Typed]) -> Result<Variables, AllocError>
    ensures { IfOk result (λ scope. scope ≡ with_constants declared.now vars.now) }
{
    let scope = with_constants(alloc, declared, vars)?;
    Variables::new(alloc, &scope)
}

/// A `clause` line.
#[tactic(auto, unfolding(crate::specs::Flaws::specification_line_has))]
fn clause_line_has(
    alloc: Global,
    flaw: Flaw,
    declared: &Declared,
    name: &Name,
    vars: &List<Typed>,
    literals: &List<LiteralForm>,
) -> Result<bool, AllocError>
    ensures { IfOk result (λ found. found ≡ specification_line_has flaw declared.now (Form.Clause name.now vars.now literals.now)) }
{
    let variables = variables_have(alloc, flaw, declared, vars.as_slice())?;
    let scope = scope_of(alloc, declared, vars.as_slice())?;
    Ok(
        clause_is_declared(flaw, declared, name)
            || variables
            || some_literal_has(flaw, declared, &scope, literals.as_slice()),
    )
}

/// An `op` line.
#[tactic(auto, unfolding(crate::specs::Flaws::specification_line_has))]
fn operation_line_has(
    alloc: Global,
    flaw: Flaw,
    declared: &Declared,
    name: &Name,
    params: &List<Typed>,
) -> Result<bool, AllocError>
    ensures { IfOk result (λ found. found ≡ specification_line_has flaw declared.now (Form.Op name.now params.now)) }
{
    let variables = variables_have(alloc, flaw, declared, params.as_slice())?;
    Ok(operation_is_declared(flaw, declared, name) || variables)
}

/// A `need` line.
#[tactic(auto, unfolding(crate::specs::Flaws::specification_line_has))]
fn need_line_has(
    alloc: Global,
    flaw: Flaw,
    declared: &Declared,
    literal: &LiteralForm,
) -> Result<bool, AllocError>
    ensures { IfOk result (λ found. found ≡ specification_line_has flaw declared.now (Form.Need literal.now)) }
{
    let scope = scope_of(alloc, declared, operation_scope(declared))?;
    Ok(literal_has(flaw, declared, &scope, literal))
}

/// An `add` or a `del` line.
fn effect_line_has(
    alloc: Global,
    flaw: Flaw,
    declared: &Declared,
    add: bool,
    predicate: &Name,
    args: &List<Option<Name>>,
) -> Result<bool, AllocError>
    ensures { IfOk result (λ found. found ≡ effect_has flaw declared.now (with_constants declared.now (operation_scope declared.now)) (record { add = add; predicate = predicate.now; args = args.now })) }
{
    let scope = scope_of(alloc, declared, operation_scope(declared))?;
    Ok(effect_has(flaw, declared, &scope, add, predicate, args))
}

/// A `bound` line.
#[tactic(auto, unfolding(crate::specs::Flaws::specification_line_has))]
fn bound_line_has(
    alloc: Global,
    flaw: Flaw,
    declared: &Declared,
    name: &Name,
    predicate: &Name,
    vars: &List<Name>,
    counted: &Name,
    most: u32,
    pick: Pick,
) -> Result<bool, AllocError>
    ensures { IfOk result (λ found. found ≡ specification_line_has flaw declared.now (Form.Bound name.now predicate.now vars.now counted.now most pick)) }
{
    let subject = bound_has(alloc, flaw, declared, predicate, vars.as_slice(), counted)?;
    Ok(bound_is_declared(flaw, declared, name) || subject)
}

/// A `drops` line.
#[tactic(auto, unfolding(crate::specs::Flaws::specification_line_has))]
fn drops_line_has(
    alloc: Global,
    flaw: Flaw,
    declared: &Declared,
    predicate: &Name,
    args: &List<Option<Name>>,
) -> Result<bool, AllocError>
    ensures { IfOk result (λ found. found ≡ specification_line_has flaw declared.now (Form.Drops predicate.now args.now)) }
{
    let vars = bound_scope(alloc, declared)?;
    let scope = scope_of(alloc, declared, &vars)?;
    Ok(effect_has(flaw, declared, &scope, false, predicate, args))
}

/// Whether a specification line has a flaw. Setup lines are none.
#[tactic(auto, unfolding(crate::specs::Flaws::specification_line_has))]
pub fn specification_line_has(
    alloc: Global,
    flaw: Flaw,
    declared: &Declared,
    line: &Form,
) -> Result<bool, AllocError>
    ensures { IfOk result (λ found. found ≡ specification_line_has flaw declared.now line.now) }
{
    match line {
        Form::Sort { name } => Ok(sort_is_declared(flaw, declared, name)),
        Form::Const { constant } => Ok(
            constant_is_declared(flaw, declared, &constant.name)
                || sort_has(flaw, declared, &constant.sort),
        ),
        Form::Pred { name, sorts, .. } => Ok(
            predicate_is_declared(flaw, declared, name)
                || some_sort_has(flaw, declared, sorts.as_slice()),
        ),
        Form::Clause {
            name,
            vars,
            literals,
        } => clause_line_has(alloc, flaw, declared, name, vars, literals),
        Form::Op { name, params } => operation_line_has(alloc, flaw, declared, name, params),
        Form::Need { literal } => need_line_has(alloc, flaw, declared, literal),
        Form::Add { predicate, args } => effect_line_has(
            alloc, flaw, declared, true, predicate, args,
        ),
        Form::Del { predicate, args } => effect_line_has(
            alloc, flaw, declared, false, predicate, args,
        ),
        Form::Bound {
            name,
            predicate,
            vars,
            counted,
            most,
            pick,
        } => bound_line_has(
            alloc, flaw, declared, name, predicate, vars, counted, *most, *pick,
        ),
        Form::Drops { predicate, args } => drops_line_has(alloc, flaw, declared, predicate, args),
        _ => Ok(false),
    }
}

/// The limit, if the count is above the greatest allowed.
fn count_above(which: u8, most: usize, count: usize) -> Option<SpecFault>
    ensures { result ≡ count_above which most count }
{
    if count > most {
        Some(SpecFault::Limit {
            which,
            found: count as u64,
        })
    } else {
        None
    }
}

/// Limit 12, if the size is outside of it.
fn size_outside(size: u32) -> Option<SpecFault>
    ensures { result ≡ size_outside (size ∷ []) }
{
    if 1 <= size && size <= 65535 {
        None
    } else {
        Some(SpecFault::Limit {
            which: 12,
            found: size as u64,
        })
    }
}

/// The limit of constants of a sort, counted with one more.
fn constants_above(declared: &Declared, sort: &Name) -> Option<SpecFault>
    ensures { result ≡ count_above 19 4 (length (constants_named declared.now.constants sort.now) + 1) }
{
    let constants = declared.constants.as_slice();
    count_above(19, 4, constant_count(constants, sort) + 1)
}

/// The limit of needs, counted with one more need of the operation declared last.
fn needs_above(declared: &Declared) -> Option<SpecFault>
    ensures { result ≡ option_map_or (λ o. count_above 10 6 (length o.needs + 1)) (last_of declared.now.operations) None }
{
    match last_operation(declared) {
        Some(operation) => count_above(10, 6, operation.needs.as_slice().len() + 1),
        None => None,
    }
}

/// The limit of effects, counted with one more effect of the operation declared last.
fn effects_above(declared: &Declared) -> Option<SpecFault>
    ensures { result ≡ effects_above declared.now }
{
    match last_operation(declared) {
        Some(operation) => count_above(9, 12, operation.effects.as_slice().len() + 1),
        None => None,
    }
}

/// The limit of further removes, counted with one more of the bound declared last.
fn removes_above(declared: &Declared) -> Option<SpecFault>
    ensures { result ≡ option_map_or (λ b. count_above 13 4 (length b.removes + 1)) (last_of declared.now.bounds) None }
{
    match last_bound(declared) {
        Some(bound) => count_above(13, 4, bound.removes.as_slice().len() + 1),
        None => None,
    }
}

/// The least limit that the line passes.
pub fn limit_passed(declared: &Declared, line: &Form) -> Option<SpecFault>
    ensures { result ≡ limit_passed declared.now line.now }
{
    match line {
        Form::Sort { .. } => count_above(1, 8, declared.sorts.as_slice().len() + 1),
        Form::Const { constant } => constants_above(declared, &constant.sort),
        Form::Pred { sorts, .. } => count_above(2, 32, declared.predicates.as_slice().len() + 1).or(
            count_above(3, 3, sorts.len()),
        ),
        Form::Clause { vars, literals, .. } => count_above(
            4,
            32,
            declared.clauses.as_slice().len() + 1,
        ).or(count_above(5, 6, literals.len()))
            .or(count_above(6, 4, vars.len())),
        Form::Op { params, .. } => count_above(7, 32, declared.operations.as_slice().len() + 1).or(
            count_above(8, 4, params.len()),
        ),
        Form::Need { .. } => needs_above(declared),
        Form::Add { .. } => effects_above(declared),
        Form::Del { .. } => effects_above(declared),
        Form::Bound { most, .. } => count_above(11, 8, declared.bounds.as_slice().len() + 1).or(
            size_outside(*most),
        ),
        Form::Drops { .. } => removes_above(declared),
        _ => None,
    }
}

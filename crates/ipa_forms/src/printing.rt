//! From a form to its canonical line.
ghost use Rattle.std.specs.Prelude.{◌≡◌, ◌++◌, codes, OnOk};
ghost use Rattle.std.specs.Fmt.{decimal};
ghost use Rattle.std.specs.List.{flat_map, join_by};
ghost use Rattle.ipa_forms.specs.Layout.{applied_text, line_of, literal_text, name_text, pick_text, rule_text, text_of, typed_text};

pub(crate) mod parts;

use crate::forms::{Form, LiteralForm, Typed};
use crate::printing::parts::{Printed, write_applied, write_joined, write_name};
use ipa_spec::{List, Name, Pick, Rule};
use ipa_text::Page;
use std::alloc::AllocError;

/// Prints a keyword, a name, and parts in parentheses.
fn write_call<P: Printed>(
    page: &mut Page,
    keyword: &str,
    name: Name,
    parts: &List<P>,
) -> Result<(), AllocError>
    ensures { OnOk result (page.new ≡ page.old ++ (keyword.now ++ applied_text P.shown name parts.now)) }
{
    page.text(keyword)?;
    write_applied(page, name, parts)
}

/// Prints a keyword and a number.
fn write_count(page: &mut Page, keyword: &str, number: u32) -> Result<(), AllocError>
    ensures { OnOk result (page.new ≡ page.old ++ (keyword.now ++ decimal number)) }
{
    page.text(keyword)?;
    page.number(u64::from(number))
}

/// Prints a rule.
fn write_rule(page: &mut Page, rule: Rule) -> Result<(), AllocError>
    ensures { OnOk result (page.new ≡ page.old ++ rule_text rule) }
{
    match rule {
        Rule::AddWins => page.text("addwins"),
        Rule::RemoveWins => page.text("remwins"),
    }
}

/// Prints the line of a predicate.
fn write_pred(page: &mut Page, name: Name, sorts: &List<Name>, rule: Rule) -> Result<(), AllocError>
    ensures { OnOk result (page.new ≡ page.old ++ (codes "pred " ++ applied_text name_text name sorts.now ++ codes " " ++ rule_text rule)) }
{
    write_call(page, "pred ", name, sorts)?;
    page.text(" ")?;
    write_rule(page, rule)
}

/// Prints the line of a clause.
fn write_clause(
    page: &mut Page,
    name: Name,
    vars: &List<Typed>,
    literals: &List<LiteralForm>,
) -> Result<(), AllocError>
    ensures { OnOk result (page.new ≡ page.old ++ (codes "clause " ++ applied_text typed_text name vars.now ++ codes ": " ++ join_by literal_text (codes " or ") literals.now)) }
{
    write_call(page, "clause ", name, vars)?;
    page.text(": ")?;
    write_joined(page, " or ", literals.as_slice())
}

/// Prints the head of the line of a bound, up to its variables.
fn write_bound_head(
    page: &mut Page,
    name: Name,
    predicate: Name,
    vars: &List<Name>,
) -> Result<(), AllocError>
    ensures { OnOk result (page.new ≡ page.old ++ (codes "bound " ++ name_text name ++ codes " " ++ applied_text name_text predicate vars.now)) }
{
    page.text("bound ")?;
    write_name(page, name)?;
    page.text(" ")?;
    write_applied(page, predicate, vars)
}

/// Prints what is picked: nothing for the greatest fact.
fn write_pick(page: &mut Page, pick: Pick) -> Result<(), AllocError>
    ensures { OnOk result (page.new ≡ page.old ++ pick_text pick) }
{
    match pick {
        Pick::Greatest => Ok(()),
        Pick::Youngest => page.text(" youngest"),
    }
}

/// Prints what ends the line of a bound: the variable that is counted, the most that there may be, and what is
/// picked.
fn write_limit(page: &mut Page, counted: Name, most: u32, pick: Pick) -> Result<(), AllocError>
    ensures { OnOk result (page.new ≡ page.old ++ (codes " counts " ++ name_text counted ++ codes " most " ++ decimal most ++ pick_text pick)) }
{
    page.text(" counts ")?;
    write_name(page, counted)?;
    write_count(page, " most ", most)?;
    write_pick(page, pick)
}

/// Prints names, each behind a space.
fn write_names(page: &mut Page, names: &List<Name>) -> Result<(), AllocError>
    ensures { OnOk result (page.new ≡ page.old ++ flat_map (λ n. codes " " ++ name_text n) names.now) }
{
    for name in names.as_slice() {
        page.text(" ")?;
        write_name(page, *name)?;
    }
    Ok(())
}

/// Prints the line of elements.
fn write_elem(page: &mut Page, sort: Name, elements: &List<Name>) -> Result<(), AllocError>
    ensures { OnOk result (page.new ≡ page.old ++ (codes "elem " ++ name_text sort ++ flat_map (λ n. codes " " ++ name_text n) elements.now)) }
{
    page.text("elem ")?;
    write_name(page, sort)?;
    write_names(page, elements)
}

/// Prints the line of a sort.
fn write_sort(page: &mut Page, name: Name) -> Result<(), AllocError>
    ensures { OnOk result (page.new ≡ page.old ++ (codes "sort " ++ name_text name)) }
{
    page.text("sort ")?;
    write_name(page, name)
}

/// Prints the line of a constant.
fn write_const(page: &mut Page, constant: Typed) -> Result<(), AllocError>
    ensures { OnOk result (page.new ≡ page.old ++ (codes "const " ++ name_text constant.name ++ codes ": " ++ name_text constant.sort)) }
{
    page.text("const ")?;
    write_name(page, constant.name)?;
    page.text(": ")?;
    write_name(page, constant.sort)
}

/// Prints the line of a need.
fn write_need(page: &mut Page, literal: &LiteralForm) -> Result<(), AllocError>
    ensures { OnOk result (page.new ≡ page.old ++ (codes "need " ++ literal_text literal.now)) }
{
    page.text("need ")?;
    literal.write(page)
}

/// Prints the canonical line of a form, without its line feed.
fn write_line(page: &mut Page, form: &Form) -> Result<(), AllocError>
    ensures { OnOk result (page.new ≡ page.old ++ line_of form.now) }
{
    match form {
        Form::Sort { name } => write_sort(page, *name),
        Form::Const { constant } => write_const(page, *constant),
        Form::Pred { name, sorts, rule } => write_pred(page, *name, sorts, *rule),
        Form::Clause {
            name,
            vars,
            literals,
        } => write_clause(page, *name, vars, literals),
        Form::Op { name, params } => write_call(page, "op ", *name, params),
        Form::Need { literal } => write_need(page, literal),
        Form::Add { predicate, args } => write_call(page, "add ", *predicate, args),
        Form::Del { predicate, args } => write_call(page, "del ", *predicate, args),
        Form::Bound {
            name,
            predicate,
            vars,
            counted,
            most,
            pick,
        } => {
            write_bound_head(page, *name, *predicate, vars)?;
            write_limit(page, *counted, *most, *pick)
        }
        Form::Drops { predicate, args } => write_call(page, "drops ", *predicate, args),
        Form::Elem { sort, elements } => write_elem(page, *sort, elements),
        Form::Base {
            predicate,
            elements,
        } => write_call(page, "base ", *predicate, elements),
        Form::Replicas { number } => write_count(page, "replicas ", *number),
        Form::Session { number } => write_count(page, "session ", *number),
        Form::Do {
            operation,
            elements,
        } => write_call(page, "do ", *operation, elements),
        Form::Show { predicate, places } => write_call(page, "show ", *predicate, places),
    }
}

/// Prints the canonical line of a form, with its line feed. Where memory runs out, a part of it may stand on the page.
pub fn write_form(page: &mut Page, form: &Form) -> Result<(), AllocError>
    ensures { OnOk result (page.new ≡ page.old ++ text_of form.now) }
{
    write_line(page, form)?;
    page.text("\n")
}

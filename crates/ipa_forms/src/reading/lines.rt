//! Lines, by the word that they begin with.
ghost use Rattle.std.specs.Prelude.{◌≡◌, List, IfOk, MatchOption};
ghost use Rattle.ipa_forms.specs.Forms.{literal, number_alone, pick_words};
ghost use Rattle.ipa_forms.specs.Lines.{limit, rule_alone, AreNames, IsFormRead, IsWhole};
ghost use Rattle.ipa_forms.specs.Parts.{applied};
ghost use Rattle.ipa_spec.specs.declared.names.Name.{Name};

use crate::forms::{Form, LiteralForm, Typed};
use crate::keywords::Keyword;
use crate::reading::lists::{Member, read_applied, read_joined};
use crate::reading::separators::Separator;
use crate::reading::words::{Words, take_name, take_number, take_sign, take_text};
use ipa_spec::{List, Name, Pick, Rule};
use ipa_text::TokenKind;
use std::alloc::{AllocError, Global};

/// A name, and members in parentheses, to the end of the line.
fn read_call<M: Member>(
    alloc: Global,
    words: &mut Words<'_>,
) -> Result<Option<(Name, List<M>)>, AllocError>
    ensures { IfOk result (λ found. IsWhole (applied M.said) words.old found) }
{
    let Some(call) = read_applied(alloc, words)? else {
        return Ok(None);
    };
    if !words.is_empty() {
        return Ok(None);
    }
    Ok(Some(call))
}

/// A number, to the end of the line.
fn read_count(words: &mut Words<'_>) -> Option<u32>
    ensures { IsWhole number_alone words.old result }
{
    let number = take_number(words)?;
    if !words.is_empty() {
        return None;
    }
    Some(number)
}

/// Names, one or more, to the end of the line.
fn read_names(alloc: Global, words: &mut Words<'_>) -> Result<Option<List<Name>>, AllocError>
    ensures { IfOk result (λ found. MatchOption found ((ns : List Name) → AreNames words.old ns → ⊥) (AreNames words.old)) }
{
    let mut names = List::new(alloc);
    while !words.is_empty() {
        let Some(name) = take_name(words) else {
            return Ok(None);
        };
        names.push(name)?;
    }
    if names.is_empty() {
        return Ok(None);
    }
    Ok(Some(names))
}

/// What follows `sort`.
fn read_sort(words: &mut Words<'_>) -> Option<Form>
    ensures { IsFormRead Keyword.Sort words.old result }
{
    let name = take_name(words)?;
    if !words.is_empty() {
        return None;
    }
    Some(Form::Sort { name })
}

/// What follows `const`.
fn read_const(alloc: Global, words: &mut Words<'_>) -> Result<Option<Form>, AllocError>
    ensures { IfOk result (λ found. IsFormRead Keyword.Const words.old found) }
{
    let Some(constant) = Typed::read(alloc, words)? else {
        return Ok(None);
    };
    if !words.is_empty() {
        return Ok(None);
    }
    Ok(Some(Form::Const { constant }))
}

/// The rule at the end of a line.
fn read_rule(words: &mut Words<'_>) -> Option<Rule>
    ensures { IsWhole rule_alone words.old result }
{
    let rule = if take_text(words, "addwins") {
        Rule::AddWins
    } else if take_text(words, "remwins") {
        Rule::RemoveWins
    } else {
        return None;
    };
    if !words.is_empty() {
        return None;
    }
    Some(rule)
}

/// What follows `pred`.
fn read_pred(alloc: Global, words: &mut Words<'_>) -> Result<Option<Form>, AllocError>
    ensures { IfOk result (λ found. IsFormRead Keyword.Pred words.old found) }
{
    let Some((name, sorts)) = read_applied(alloc, words)? else {
        return Ok(None);
    };
    let Some(rule) = read_rule(words) else {
        return Ok(None);
    };
    Ok(Some(Form::Pred { name, sorts, rule }))
}

/// What follows `clause`.
fn read_clause(alloc: Global, words: &mut Words<'_>) -> Result<Option<Form>, AllocError>
    ensures { IfOk result (λ found. IsFormRead Keyword.Clause words.old found) }
{
    let Some((name, vars)) = read_applied(alloc, words)? else {
        return Ok(None);
    };
    if !take_sign(words, TokenKind::Colon) {
        return Ok(None);
    }
    let Some(literals) = read_joined(alloc, Separator::Or, words)? else {
        return Ok(None);
    };
    if !words.is_empty() {
        return Ok(None);
    }
    Ok(Some(Form::Clause {
        name,
        vars,
        literals,
    }))
}

/// What follows `op`.
fn read_op(alloc: Global, words: &mut Words<'_>) -> Result<Option<Form>, AllocError>
    ensures { IfOk result (λ found. IsFormRead Keyword.Op words.old found) }
{
    let Some((name, params)) = read_call(alloc, words)? else {
        return Ok(None);
    };
    Ok(Some(Form::Op { name, params }))
}

/// What follows `add`.
fn read_add(alloc: Global, words: &mut Words<'_>) -> Result<Option<Form>, AllocError>
    ensures { IfOk result (λ found. IsFormRead Keyword.Add words.old found) }
{
    let Some((predicate, args)) = read_call(alloc, words)? else {
        return Ok(None);
    };
    Ok(Some(Form::Add { predicate, args }))
}

/// What follows `del`.
fn read_del(alloc: Global, words: &mut Words<'_>) -> Result<Option<Form>, AllocError>
    ensures { IfOk result (λ found. IsFormRead Keyword.Del words.old found) }
{
    let Some((predicate, args)) = read_call(alloc, words)? else {
        return Ok(None);
    };
    Ok(Some(Form::Del { predicate, args }))
}

/// What follows `drops`.
fn read_drops(alloc: Global, words: &mut Words<'_>) -> Result<Option<Form>, AllocError>
    ensures { IfOk result (λ found. IsFormRead Keyword.Drops words.old found) }
{
    let Some((predicate, args)) = read_call(alloc, words)? else {
        return Ok(None);
    };
    Ok(Some(Form::Drops { predicate, args }))
}

/// What follows `base`.
fn read_base(alloc: Global, words: &mut Words<'_>) -> Result<Option<Form>, AllocError>
    ensures { IfOk result (λ found. IsFormRead Keyword.Base words.old found) }
{
    let Some((predicate, elements)) = read_call(alloc, words)? else {
        return Ok(None);
    };
    Ok(Some(Form::Base {
        predicate,
        elements,
    }))
}

/// What follows `do`.
fn read_do(alloc: Global, words: &mut Words<'_>) -> Result<Option<Form>, AllocError>
    ensures { IfOk result (λ found. IsFormRead Keyword.Do words.old found) }
{
    let Some((operation, elements)) = read_call(alloc, words)? else {
        return Ok(None);
    };
    Ok(Some(Form::Do {
        operation,
        elements,
    }))
}

/// What follows `show`.
fn read_show(alloc: Global, words: &mut Words<'_>) -> Result<Option<Form>, AllocError>
    ensures { IfOk result (λ found. IsFormRead Keyword.Show words.old found) }
{
    let Some((predicate, places)) = read_call(alloc, words)? else {
        return Ok(None);
    };
    Ok(Some(Form::Show { predicate, places }))
}

/// What follows `replicas`.
fn read_replicas(words: &mut Words<'_>) -> Option<Form>
    ensures { IsFormRead Keyword.Replicas words.old result }
{
    let number = read_count(words)?;
    Some(Form::Replicas { number })
}

/// What follows `session`.
fn read_session(words: &mut Words<'_>) -> Option<Form>
    ensures { IsFormRead Keyword.Session words.old result }
{
    let number = read_count(words)?;
    Some(Form::Session { number })
}

/// What follows `need`.
fn read_need(alloc: Global, words: &mut Words<'_>) -> Result<Option<Form>, AllocError>
    ensures { IfOk result (λ found. IsFormRead Keyword.Need words.old found) }
{
    let Some(literal) = LiteralForm::read(alloc, words)? else {
        return Ok(None);
    };
    if !words.is_empty() {
        return Ok(None);
    }
    Ok(Some(Form::Need { literal }))
}

/// What is picked, at the end of a line.
fn read_pick(words: &mut Words<'_>) -> Option<Pick>
    ensures { IsWhole pick_words words.old result }
{
    let pick = if take_text(words, "youngest") {
        Pick::Youngest
    } else {
        Pick::Greatest
    };
    if !words.is_empty() {
        return None;
    }
    Some(pick)
}

/// What follows the variables of a `bound`: the variable that is counted, the most that there may be, and
/// what is picked.
fn read_limit(words: &mut Words<'_>) -> Option<(Name, u32, Pick)>
    ensures { IsWhole limit words.old result }
{
    if !take_text(words, "counts") {
        return None;
    }
    let counted = take_name(words)?;
    if !take_text(words, "most") {
        return None;
    }
    let most = take_number(words)?;
    let pick = read_pick(words)?;
    Some((counted, most, pick))
}

/// What follows `bound`.
fn read_bound(alloc: Global, words: &mut Words<'_>) -> Result<Option<Form>, AllocError>
    ensures { IfOk result (λ found. IsFormRead Keyword.Bound words.old found) }
{
    let Some(name) = take_name(words) else {
        return Ok(None);
    };
    let Some((predicate, vars)) = read_applied(alloc, words)? else {
        return Ok(None);
    };
    let Some((counted, most, pick)) = read_limit(words) else {
        return Ok(None);
    };
    Ok(Some(Form::Bound {
        name,
        predicate,
        vars,
        counted,
        most,
        pick,
    }))
}

/// What follows `elem`.
fn read_elem(alloc: Global, words: &mut Words<'_>) -> Result<Option<Form>, AllocError>
    ensures { IfOk result (λ found. IsFormRead Keyword.Elem words.old found) }
{
    let Some(sort) = take_name(words) else {
        return Ok(None);
    };
    let Some(elements) = read_names(alloc, words)? else {
        return Ok(None);
    };
    Ok(Some(Form::Elem { sort, elements }))
}

/// What follows a keyword, to the end of the line.
pub(crate) fn read_line(
    alloc: Global,
    keyword: Keyword,
    words: &mut Words<'_>,
) -> Result<Option<Form>, AllocError>
    ensures { IfOk result (λ found. IsFormRead keyword words.old found) }
{
    match keyword {
        Keyword::Sort => Ok(read_sort(words)),
        Keyword::Const => read_const(alloc, words),
        Keyword::Pred => read_pred(alloc, words),
        Keyword::Clause => read_clause(alloc, words),
        Keyword::Op => read_op(alloc, words),
        Keyword::Need => read_need(alloc, words),
        Keyword::Add => read_add(alloc, words),
        Keyword::Del => read_del(alloc, words),
        Keyword::Bound => read_bound(alloc, words),
        Keyword::Drops => read_drops(alloc, words),
        Keyword::Elem => read_elem(alloc, words),
        Keyword::Base => read_base(alloc, words),
        Keyword::Replicas => Ok(read_replicas(words)),
        Keyword::Session => Ok(read_session(words)),
        Keyword::Do => read_do(alloc, words),
        Keyword::Show => read_show(alloc, words),
    }
}

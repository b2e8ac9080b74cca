//! Transactions, from the parts of a line.
ghost use Rattle.std.specs.Prelude.{◌≡◌, ◌≤◌, Some, length};
ghost use Rattle.ipa_journal.specs.Parts.{number_part};
ghost use Rattle.ipa_journal.specs.Meaning.{action_done, bound_named, counts_in, done_in, drop_done, operation_done, operation_named, origin_at, origin_of, tx_in};

use crate::elements::action_sorts;
use crate::facts::values_in;
use crate::keywords::Keyword;
use crate::lookups::{Elements, bound_named, operation_named};
use crate::parts::{Part, group_at, is_key, number_at, word_at};
use ipa_clock::{Cut, Dot};
use ipa_history::Tx;
use ipa_spec::{Action, Name, Spec};

/// An action with its arguments.
#[derive(Clone, Copy)]
pub struct Done {
    /// What is done.
    pub action: Action,
    /// The arguments, and 0 past them.
    pub args: [u16; 4],
    /// How many arguments there are.
    pub count: u8,
}

fn origin_of(sessions: usize, number: u32) -> Option<u8>
    requires { sessions ≤ 16 }
    ensures { result ≡ origin_of sessions (Some number) }
{
    if 1 <= number && number as usize <= sessions {
        Some((number - 1) as u8)
    } else {
        None
    }
}

/// The number of a session in a place.
pub(crate) fn origin_at(sessions: usize, parts: &[Part], place: usize) -> Option<u8>
    requires { sessions ≤ 16 }
    ensures { result ≡ origin_at sessions parts.now place }
{
    match number_at(parts, place) {
        Some(number) => origin_of(sessions, number),
        None => None,
    }
}

fn number_part(part: &Part) -> Option<u32>
    ensures { result ≡ number_part part.now }
{
    match part {
        Part::Word(_) => None,
        Part::Number(number) => Some(*number),
        Part::Group(_) => None,
    }
}

/// The counts of a cut.
pub(crate) fn counts_in(parts: &[Part]) -> Option<[u32; 16]>
    requires { length parts.now ≤ 16 }
    ensures { result ≡ counts_in parts.now }
{
    let mut counts = [0; 16];
    let mut place = 0;
    for part in parts {
        counts[place] = number_part(part)?;
        place += 1;
    }
    Some(counts)
}

fn operation_done(spec: &Spec, elements: &Elements, name: &Name, names: &[Name]) -> Option<Done>
    ensures { result ≡ operation_done spec.now elements.now names.now (operation_named spec.now name.now) }
{
    let action = Action::Op(operation_named(spec, name)?);
    let args = values_in(elements, &action_sorts(spec, action), names)?;
    Some(Done {
        action,
        args,
        count: names.len() as u8,
    })
}

fn drop_done(spec: &Spec, elements: &Elements, name: &Name, names: &[Name]) -> Option<Done>
    ensures { result ≡ drop_done spec.now elements.now names.now (bound_named spec.now name.now) }
{
    let action = Action::Drop(bound_named(spec, name)?);
    let args = values_in(elements, &action_sorts(spec, action), names)?;
    Some(Done {
        action,
        args,
        count: names.len() as u8,
    })
}

fn action_done(
    spec: &Spec,
    elements: &Elements,
    parts: &[Part],
    name: &Name,
    names: &[Name],
) -> Option<Done>
    ensures { result ≡ action_done spec.now elements.now parts.now name.now names.now }
{
    if is_key(parts, 0, Keyword::Do) {
        return operation_done(spec, elements, name, names);
    }
    if is_key(parts, 0, Keyword::Drop) {
        return drop_done(spec, elements, name, names);
    }
    None
}

/// An action with its arguments.
fn done_in(spec: &Spec, elements: &Elements, parts: &[Part]) -> Option<Done>
    ensures { result ≡ done_in spec.now elements.now parts.now }
{
    if parts.len() != 3 {
        return None;
    }
    let name = word_at(parts, 1)?;
    let names = group_at(parts, 2)?;
    action_done(spec, elements, parts, &name, names)
}

/// A transaction.
pub(crate) fn tx_in(spec: &Spec, elements: &Elements, sessions: usize, parts: &[Part]) -> Option<Tx>
    requires { sessions ≤ 16 }
    ensures { result ≡ tx_in spec.now elements.now sessions parts.now }
{
    if parts.len() < 4 + sessions || !is_key(parts, 3, Keyword::Cut) {
        return None;
    }
    let origin = origin_at(sessions, parts, 1)?;
    let number = number_at(parts, 2)?;
    let counts = counts_in(&parts[4..4 + sessions])?;
    let done = done_in(spec, elements, &parts[4 + sessions..])?;
    let args = done.args;
    Some(Tx {
        dot: Dot { origin, number },
        cut: Cut { counts },
        action: done.action,
        args,
        count: done.count,
    })
}

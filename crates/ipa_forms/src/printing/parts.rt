//! The parts of canonical lines.
ghost use Rattle.std.specs.Prelude.{◌≡◌, ◌++◌, OnOk};
ghost use Rattle.std.specs.List.{join_by};
ghost use Rattle.ipa_forms.specs.Layout.{applied_text, atom_text, listed_text, literal_text, name_text, place_text, typed_text};

use crate::forms::{AtomForm, LiteralForm, Typed};
use ipa_spec::{List, Name};
use ipa_text::Page;
use std::alloc::AllocError;
use std::str;

/// What is printed in a list.
pub trait Printed {
    ghost use Rattle.std.specs.Prelude.{◌≡◌, ℕ, List, ◌++◌, OnOk};

    // The text of a part.
    ghost shown: { Self → List ℕ };

    /// Prints the part.
    fn write(&self, page: &mut Page) -> Result<(), AllocError>
        ensures { OnOk result (page.new ≡ page.old ++ shown self.now) };
}

/// Prints a name.
pub fn write_name(page: &mut Page, name: Name) -> Result<(), AllocError>
    ensures { OnOk result (page.new ≡ page.old ++ name_text name) }
{
    match str::from_utf8(name.as_bytes()) {
        Ok(text) => page.text(text),
        Err(_) => unreachable!(),
    }
}

/// Prints parts with a text between each two.
pub fn write_joined<P: Printed>(
    page: &mut Page,
    between: &str,
    parts: &[P],
) -> Result<(), AllocError>
    ensures { OnOk result (page.new ≡ page.old ++ join_by P.shown between.now parts.now) }
{
    let Some((first, later)) = parts.split_first() else {
        return Ok(());
    };
    first.write(page)?;
    for part in later {
        page.text(between)?;
        part.write(page)?;
    }
    Ok(())
}

/// Prints parts in parentheses, with commas between them.
pub fn write_list<P: Printed>(page: &mut Page, parts: &List<P>) -> Result<(), AllocError>
    ensures { OnOk result (page.new ≡ page.old ++ listed_text P.shown parts.now) }
{
    page.text("(")?;
    write_joined(page, ",", parts.as_slice())?;
    page.text(")")
}

/// Prints a name, and parts in parentheses behind it.
pub fn write_applied<P: Printed>(
    page: &mut Page,
    name: Name,
    parts: &List<P>,
) -> Result<(), AllocError>
    ensures { OnOk result (page.new ≡ page.old ++ applied_text P.shown name parts.now) }
{
    write_name(page, name)?;
    write_list(page, parts)
}

impl Printed for Name {
    ghost shown = { name_text };

    fn write(&self, page: &mut Page) -> Result<(), AllocError> {
        write_name(page, *self)
    }
}

/// An argument: `None` stands for `*`.
impl Printed for Option<Name> {
    ghost shown = { place_text };

    fn write(&self, page: &mut Page) -> Result<(), AllocError> {
        match self {
            None => page.text("*"),
            Some(name) => write_name(page, *name),
        }
    }
}

impl Printed for Typed {
    ghost shown = { typed_text };

    fn write(&self, page: &mut Page) -> Result<(), AllocError> {
        write_name(page, self.name)?;
        page.text(":")?;
        write_name(page, self.sort)
    }
}

/// Prints an atom.
fn write_atom(page: &mut Page, atom: &AtomForm) -> Result<(), AllocError>
    ensures { OnOk result (page.new ≡ page.old ++ atom_text atom.now) }
{
    write_applied(page, atom.predicate, &atom.args)
}

/// Prints two names with a sign between them.
fn write_pair(page: &mut Page, first: Name, sign: &str, second: Name) -> Result<(), AllocError>
    ensures { OnOk result (page.new ≡ page.old ++ (name_text first ++ sign.now ++ name_text second)) }
{
    write_name(page, first)?;
    page.text(sign)?;
    write_name(page, second)
}

impl Printed for LiteralForm {
    ghost shown = { literal_text };

    fn write(&self, page: &mut Page) -> Result<(), AllocError> {
        match self {
            LiteralForm::Holds(atom) => write_atom(page, atom),
            LiteralForm::Fails(atom) => {
                page.text("not ")?;
                write_atom(page, atom)
            }
            LiteralForm::Same(first, second) => write_pair(page, *first, " = ", *second),
            LiteralForm::Differ(first, second) => write_pair(page, *first, " != ", *second),
        }
    }
}

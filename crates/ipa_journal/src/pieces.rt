//! The pieces that the lines of a journal are written of, and how they are printed.
ghost use Rattle.std.specs.Prelude.{◌≡◌, ◌++◌, OnOk};
ghost use Rattle.ipa_journal.specs.Pieces.{gap_text, line_text, piece_text, text_of};

use crate::keywords::Keyword;
use ipa_forms::{Printed, write_list, write_name};
use ipa_spec::{List, Name};
use ipa_text::Page;
use std::alloc::AllocError;

/// A piece of a line.
#[derive(Drop)]
pub enum Piece {
    /// A word of journals.
    Key(Keyword),
    /// A declared name.
    Word(Name),
    /// A decimal number.
    Number(u64),
    /// Names in parentheses, with commas between them.
    Group(List<Name>),
}

impl Printed for Piece {
    ghost shown = { piece_text };

    fn write(&self, page: &mut Page) -> Result<(), AllocError> {
        match self {
            Piece::Key(keyword) => page.text(keyword.text()),
            Piece::Word(name) => write_name(page, *name),
            Piece::Number(number) => page.number(*number),
            Piece::Group(names) => write_list(page, names),
        }
    }
}

/// Prints the space before a piece that is not the first.
fn write_gap(page: &mut Page, piece: &Piece) -> Result<(), AllocError>
    ensures { OnOk result (page.new ≡ page.old ++ gap_text piece.now) }
{
    match piece {
        Piece::Key(_) => page.text(" "),
        Piece::Word(_) => page.text(" "),
        Piece::Number(_) => page.text(" "),
        Piece::Group(_) => Ok(()),
    }
}

/// Prints the pieces of a line with their spaces.
fn write_pieces(page: &mut Page, pieces: &[Piece]) -> Result<(), AllocError>
    ensures { OnOk result (page.new ≡ page.old ++ line_text pieces.now) }
{
    let Some((first, later)) = pieces.split_first() else {
        return Ok(());
    };
    first.write(page)?;
    for piece in later {
        write_gap(page, piece)?;
        piece.write(page)?;
    }
    Ok(())
}

/// Prints a line of these pieces, with its line feed.
pub(crate) fn write_line(page: &mut Page, pieces: &List<Piece>) -> Result<(), AllocError>
    ensures { OnOk result (page.new ≡ page.old ++ text_of pieces.now) }
{
    write_pieces(page, pieces.as_slice())?;
    page.text("\n")
}

//! What may stand in a list: names, arguments, variables with their sorts, and literals.
ghost use Rattle.std.specs.Prelude.{◌≡◌, IfOk, MatchOption};
ghost use Rattle.ipa_forms.specs.Forms.{literal, name_alone, place, typed_name};
ghost use Rattle.ipa_forms.specs.MemberLaws.{IsOpen-literal, IsOpen-name_alone, IsOpen-place, IsOpen-typed_name, IsUnmixed-literal, IsUnmixed-name_alone, IsUnmixed-place, IsUnmixed-typed_name};

use crate::forms::{AtomForm, LiteralForm, Typed};
use crate::reading::lists::{Member, read_applied, read_list};
use crate::reading::words::{Words, take_name, take_sign, take_text};
use ipa_spec::Name;
use ipa_text::TokenKind;
use std::alloc::{AllocError, Global};

impl Member for Name {
    ghost said = { name_alone };

    fn read(_alloc: Global, words: &mut Words<'_>) -> Result<Option<Name>, AllocError> {
        Ok(take_name(words))
    }

    ghost unmixed = { IsUnmixed-name_alone };

    ghost never_closes = { IsOpen-name_alone };
}

/// An argument: `None` stands for `*`.
impl Member for Option<Name> {
    ghost said = { place };

    fn read(_alloc: Global, words: &mut Words<'_>) -> Result<Option<Option<Name>>, AllocError> {
        if take_sign(words, TokenKind::Star) {
            return Ok(Some(None));
        }
        match take_name(words) {
            Some(name) => Ok(Some(Some(name))),
            None => Ok(None),
        }
    }

    ghost unmixed = { IsUnmixed-place };

    ghost never_closes = { IsOpen-place };
}

impl Member for Typed {
    ghost said = { typed_name };

    fn read(_alloc: Global, words: &mut Words<'_>) -> Result<Option<Typed>, AllocError> {
        let Some(name) = take_name(words) else {
            return Ok(None);
        };
        if !take_sign(words, TokenKind::Colon) {
            return Ok(None);
        }
        match take_name(words) {
            Some(sort) => Ok(Some(Typed { name, sort })),
            None => Ok(None),
        }
    }

    ghost unmixed = { IsUnmixed-typed_name };

    ghost never_closes = { IsOpen-typed_name };
}

impl Member for LiteralForm {
    ghost said = { literal };

    fn read(alloc: Global, words: &mut Words<'_>) -> Result<Option<LiteralForm>, AllocError> {
        if take_text(words, "not") {
            let Some((predicate, args)) = read_applied(alloc, words)? else {
                return Ok(None);
            };
            return Ok(Some(LiteralForm::Fails(AtomForm { predicate, args })));
        }
        let Some(first) = take_name(words) else {
            return Ok(None);
        };
        if take_sign(words, TokenKind::Equal) {
            return match take_name(words) {
                Some(second) => Ok(Some(LiteralForm::Same(first, second))),
                None => Ok(None),
            };
        }
        if take_sign(words, TokenKind::Unequal) {
            return match take_name(words) {
                Some(second) => Ok(Some(LiteralForm::Differ(first, second))),
                None => Ok(None),
            };
        }
        let Some(args) = read_list(alloc, words)? else {
            return Ok(None);
        };
        Ok(Some(LiteralForm::Holds(AtomForm {
            predicate: first,
            args,
        })))
    }

    ghost unmixed = { IsUnmixed-literal };

    ghost never_closes = { IsOpen-literal };
}

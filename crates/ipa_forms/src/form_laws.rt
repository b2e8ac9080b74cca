//! Laws on the forms of lines. These functions do nothing: what they ensure is the law.
ghost use Rattle.std.specs.Prelude.{◌≡◌, ℕ, List, IsTrue};
ghost use Rattle.std.specs.Str.Lines.{strip_carriage_return};
ghost use Rattle.ipa_text.specs.Lines.{has_content};
ghost use Rattle.ipa_text.specs.Spellings.{HasNoLineFeed};
ghost use Rattle.ipa_text.specs.Tokens.{IsCutInto};
ghost use Rattle.ipa_text.specs.declared.tokens.Token.{Token};
ghost use Rattle.ipa_forms.specs.Forms.{HasForm, HasMembers};
ghost use Rattle.ipa_forms.specs.Layout.{line_of, HasNumbers};
ghost use Rattle.ipa_forms.specs.declared.forms.Form.{Form};

use ipa_text::{one_spelling, written_line};

/// A line has at most one form.
pub fn one_form()
    ensures { (line : List ℕ) (ts : List Token) (f g : Form) → HasForm line ts f → HasForm line ts g → f ≡ g }
{}

/// The canonical line of a form, read again, has that form. It is one line, and neither blank nor a comment.
pub fn reads_back()
    ensures form { (f : Form) → HasMembers f → HasNumbers f → (ts : List Token) × IsCutInto (line_of f) ts × HasForm (line_of f) ts f }
    ensures no_line_feed { (f : Form) → HasMembers f → HasNumbers f → HasNoLineFeed (line_of f) }
    ensures no_return { (f : Form) → HasMembers f → HasNumbers f → strip_carriage_return (line_of f) ≡ line_of f }
    ensures content { (f : Form) → IsTrue (has_content (line_of f)) }
{
    one_spelling();
    written_line();
}

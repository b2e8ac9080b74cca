//! Laws on documents. These functions do nothing: what they ensure is the law.
ghost use Rattle.std.specs.Prelude.{◌≡◌, ℕ, List};
ghost use Rattle.ipa_spec.specs.Limits.{IsFaultless};
ghost use Rattle.ipa_forms.specs.declared.forms.Form.{Form};
ghost use Rattle.ipa_reader.specs.Documents.{ReadsAs, AreAccepted, IsRefused};
ghost use Rattle.ipa_logic.specs.Facts.{has, IsStateOf};
ghost use Rattle.ipa_logic.specs.declared.facts.Fact.{Fact};
ghost use Rattle.ipa_names.specs.Meaning.{specification_of};
ghost use Rattle.ipa_reader.specs.Setups.{size_list, IsSetup, IsKept};
ghost use Rattle.ipa_reader.specs.declared.standing.Standing.{Standing};
ghost use Rattle.ipa_reader.specs.Soundness.{IsSoundStanding};
ghost use Rattle.ipa_reader.specs.Standings.{standing_of};
ghost use Rattle.ipa_reader.specs.Fitting.{IsFitting};
ghost use Rattle.ipa_reader.specs.declared.document.Document.{Document};
ghost use Rattle.ipa_reader.specs.declared.document.Setup.{Setup};
ghost use Rattle.ipa_reader.specs.declared.refusals.DocKind.{DocKind};

use ipa_forms::one_form;
use ipa_names::is_faultless;
use ipa_text::one_cut;

/// A text reads as one document, or is refused with one line and one kind, and never both.
pub fn one_reading()
    ensures documents { (bytes : List ℕ) (document other : Document) → ReadsAs bytes document → ReadsAs bytes other → document ≡ other }
    ensures refusals { (bytes : List ℕ) (line other : ℕ) (kind another : DocKind) → IsRefused bytes line kind → IsRefused bytes other another → (line ≡ other) × (kind ≡ another) }
    ensures apart { (bytes : List ℕ) (document : Document) (line : ℕ) (kind : DocKind) → ReadsAs bytes document → IsRefused bytes line kind → ⊥ }
{
    one_cut();
    one_form();
}

/// What documents and setups keep by their types.
pub fn kept_by_type()
    ensures setup { (s : Setup) → IsSetup s.universe.sizes s.elements s.replicas s.sessions }
    ensures base { (d : Document) → IsKept d.spec d.setup.universe.sizes d.setup.base }
    ensures fitting { (d : Document) → IsFitting d.spec d.setup.universe.sizes d.setup.elements d.setup.base d.setup.sessions }
{}

/// What stands behind lines of which none is refused keeps all limits, and what is set up there fits what is declared.
pub fn standing_is_sound()
    ensures sound { (forms : List Form) → AreAccepted forms → IsSoundStanding (standing_of forms) }
    ensures fitting { (s : Standing) (base : List Fact) → IsSoundStanding s → IsStateOf (has s.arranged.facts) base →
        IsFitting (specification_of s.declared) (size_list s.arranged.elements) s.arranged.elements base s.arranged.sessions }
{}

/// The specification of a document has no fault.
pub fn document_faultless()
    ensures { (bytes : List ℕ) (document : Document) → ReadsAs bytes document → IsFaultless document.spec }
{
    is_faultless();
}

/// The setup of a document fits its specification: the elements of each sort begin with its constants, the base is
/// a state over the universe, and each request is one of the specification over the universe.
pub fn document_fits()
    ensures { (bytes : List ℕ) (document : Document) → ReadsAs bytes document → IsFitting document.spec document.setup.universe.sizes document.setup.elements document.setup.base document.setup.sessions }
{}

//! Laws on journals that are read again. These functions do nothing: what they ensure is the law.
ghost use Rattle.std.specs.Prelude.{◌≡◌, ℕ, List, length, map};
ghost use Rattle.ipa_logic.specs.Facts.{Universe};
ghost use Rattle.ipa_logic.specs.declared.facts.Fact.{Fact};
ghost use Rattle.ipa_logic.specs.declared.facts.Request.{Request};
ghost use Rattle.ipa_history.specs.LawfulEnds.{IsLawfulEnd};
ghost use Rattle.ipa_history.specs.declared.history.Tx.{Tx};
ghost use Rattle.ipa_history.specs.declared.outcomes.Outcome.{Outcome};
ghost use Rattle.ipa_reader.specs.Documents.{ReadsAs as IsDocument};
ghost use Rattle.ipa_reader.specs.declared.document.Document.{Document};
ghost use Rattle.ipa_reader.specs.declared.document.Setup.{Setup};
ghost use Rattle.ipa_journal.specs.Readings.{Context, context_of, ReadsAs};
ghost use Rattle.ipa_journal.specs.Texts.{content_text, end_text};
ghost use Rattle.ipa_journal.specs.declared.journal.Journal.{Journal};
ghost use Rattle.ipa_journal_laws.specs.Writable.{AreCounted, HaveAllOrigins, IsSetting, IsWritable};
ghost use Rattle.ipa_journal_laws.specs.Written.{all_outs, txs_of, written};

use ipa_journal::one_journal;
use ipa_reader::{document_faultless, kept_by_type};
use ipa_text::{one_spelling, written_line, written_text};

/// The specification and the setup of a document are a setting for journals, and its requests are few enough.
pub fn document_is_setting()
    ensures setting { (bytes : List ℕ) (document : Document) → IsDocument bytes document →
        IsSetting document.spec document.setup.universe.sizes document.setup.elements (length document.setup.sessions) }
    ensures requests { (setup : Setup) → AreCounted (map (λ work. work.requests) setup.sessions) }
{
    document_faultless();
    kept_by_type();
}

/// What is written of the end of a run is read back, and in no other way: the same transactions, the outcomes with
/// their sessions and places, and the final facts, each on its line.
pub fn end_reads_back()
    ensures reads { (c : Context) (sizes : Universe) (entries : List Tx) (outcomes : List (List Outcome))
        (last : List Fact) → IsSetting c.spec sizes c.elements c.sessions →
        IsWritable c.spec sizes c.sessions entries (all_outs 0 outcomes) last →
        ReadsAs c (end_text c.spec c.elements c.sessions entries outcomes last)
        (written c.first entries (all_outs 0 outcomes) last) }
    ensures alone { (c : Context) (sizes : Universe) (entries : List Tx) (outcomes : List (List Outcome))
        (last : List Fact) (journal : Journal) → IsSetting c.spec sizes c.elements c.sessions →
        IsWritable c.spec sizes c.sessions entries (all_outs 0 outcomes) last →
        ReadsAs c (end_text c.spec c.elements c.sessions entries outcomes last) journal →
        journal ≡ written c.first entries (all_outs 0 outcomes) last }
{
    one_spelling();
    written_line();
    written_text();
    one_journal();
}

/// A lawful end of a run can be written, and so is read back.
pub fn lawful_end_reads_back()
    ensures writable { (c : Context) (sizes : Universe) (base : List Fact) (requests : List (List Request))
        (entries : List Tx) (outcomes : List (List Outcome)) (last : List Fact) →
        IsSetting c.spec sizes c.elements c.sessions → c.sessions ≡ length requests →
        HaveAllOrigins entries outcomes → AreCounted requests →
        IsLawfulEnd c.spec sizes base requests entries outcomes last →
        IsWritable c.spec sizes c.sessions entries (all_outs 0 outcomes) last }
    ensures reads { (c : Context) (sizes : Universe) (base : List Fact) (requests : List (List Request))
        (entries : List Tx) (outcomes : List (List Outcome)) (last : List Fact) →
        IsSetting c.spec sizes c.elements c.sessions → c.sessions ≡ length requests →
        HaveAllOrigins entries outcomes → AreCounted requests →
        IsLawfulEnd c.spec sizes base requests entries outcomes last →
        ReadsAs c (end_text c.spec c.elements c.sessions entries outcomes last)
        (written c.first entries (all_outs 0 outcomes) last) }
{
    end_reads_back();
}

/// What is written of a journal is read back, and in no other way: the same content, on lines of its own.
pub fn content_reads_back()
    ensures reads { (c : Context) (sizes : Universe) (journal : Journal) →
        IsSetting c.spec sizes c.elements c.sessions →
        IsWritable c.spec sizes c.sessions (txs_of journal) journal.outcomes journal.last →
        ReadsAs c (content_text c.spec c.elements c.sessions journal)
        (written c.first (txs_of journal) journal.outcomes journal.last) }
    ensures alone { (c : Context) (sizes : Universe) (journal other : Journal) →
        IsSetting c.spec sizes c.elements c.sessions →
        IsWritable c.spec sizes c.sessions (txs_of journal) journal.outcomes journal.last →
        ReadsAs c (content_text c.spec c.elements c.sessions journal) other →
        other ≡ written c.first (txs_of journal) journal.outcomes journal.last }
{
    one_spelling();
    written_line();
    written_text();
    one_journal();
}

/// What is read of a journal, in either version, can be written.
pub fn read_is_writable()
    ensures { (c : Context) (sizes : Universe) (bytes : List ℕ) (journal : Journal) →
        IsSetting c.spec sizes c.elements c.sessions → ReadsAs c bytes journal →
        IsWritable c.spec sizes c.sessions (txs_of journal) journal.outcomes journal.last }
{}

/// A journal that is read, written anew and read again has the content that it had, wherever it starts.
pub fn migrates_whole()
    ensures { (c : Context) (sizes : Universe) (start : ℕ) (bytes : List ℕ) (journal : Journal) →
        IsSetting c.spec sizes c.elements c.sessions → ReadsAs c bytes journal →
        ReadsAs (context_of c.spec c.elements c.sessions start) (content_text c.spec c.elements c.sessions journal)
        (written start (txs_of journal) journal.outcomes journal.last) }
{
    content_reads_back();
    read_is_writable();
}

//! What a log tells of its entries to those who have seen some of them.
ghost use Rattle.std.specs.Prelude.{◌≡◌, ℕ, ◌<◌, ◌≤◌, not, false, ◌++◌, filter, drop, length, slice_get, Some, IfOk, IfErr, OnOk, MatchOption};
ghost use Rattle.ipa_clock.specs.Cut.{count_of, is_covered};
ghost use Rattle.ipa_history.specs.Histories.{IsMember, number_of};
ghost use Rattle.ipa_history.specs.declared.history.Tx.{Tx as TheTx};
ghost use Rattle.ipa_sets.specs.Indexes.{IsIndexOf};
ghost use Rattle.ipa_gate.specs.Settings.{IsLegalFor};
ghost use Rattle.ipa_gate.specs.Agreements.{HasAll, IsParted, IsDivergence, news_of, beyond_of, IsReadTo, IsCoveredTo, IfDiverged};

use crate::answers::{Diverged, PullFault};
use crate::entries::{entry_named, is_same};
use crate::log::Log;
use crate::setting::Setting;
use ipa_clock::Cut;
use ipa_history::{History, Tx};
use ipa_sets::Index;
use ipa_spec::List;
use std::alloc::{AllocError, Global};

impl Log {
    /// Whether each transaction of `seen` is an entry, or else the first that is none. It takes no memory.
    pub fn agrees(&self, seen: &History) -> Result<(), Diverged>
        ensures ok { OnOk result (HasAll self.now.entries seen.now) }
        ensures diverged { IfErr result (IsDivergence self.now.entries seen.now) }
    {
        match first_parted(&self.setting, &self.index, seen) {
            None => Ok(()),
            Some(diverged) => Err(diverged),
        }
    }

    /// The entries that `seen` lacks, in log order. It is refused where `seen` has a transaction that is no entry,
    /// with the first such one. Where `seen` is legal for the log's setting, so is `seen` followed by the news.
    pub fn news(&self, seen: &History) -> Result<List<Tx>, PullFault>
        ensures news { IfOk result (λ news. news ≡ news_of self.now.entries seen.now) }
        ensures agrees { OnOk result (HasAll self.now.entries seen.now) }
        ensures diverged { IfErr result (IfDiverged (IsDivergence self.now.entries seen.now)) }
        ensures legal { IfOk result (λ news. IsLegalFor self.now.setting seen.now →
            IsLegalFor self.now.setting (seen.now ++ news)) }
    {
        self.agrees(seen)?;
        let news = self.news_from(seen, &seen.clock(), 0)?;
        Ok(news)
    }

    /// The same where each transaction of `seen` is an entry, the cut is that of `seen`, and `seen` has the first
    /// `read` entries. It looks at the later entries alone.
    pub fn news_from(&self, seen: &History, cut: &Cut, read: u32) -> Result<List<Tx>, AllocError>
        requires agrees { HasAll self.now.entries seen.now }
        requires clock { (origin : ℕ) → origin < 16 → count_of cut.now origin ≡ number_of origin seen.now }
        requires read { IsReadTo self.now.entries seen.now read }
        ensures news { IfOk result (λ news. news ≡ news_of self.now.entries seen.now) }
        ensures all { IfOk result (λ news. HasAll (seen.now ++ news) self.now.entries) }
        ensures legal { IfOk result (λ news. IsLegalFor self.now.setting seen.now →
            IsLegalFor self.now.setting (seen.now ++ news)) }
    {
        let _formed = seen.as_slice();
        let entries = self.entries();
        let news = uncovered(self.alloc, later(entries, read), cut)?;
        Ok(List::from_vec(news))
    }

    /// The first 64 entries, in log order, that the cut does not cover.
    pub fn beyond(&self, peer: &Cut) -> Result<List<Tx>, AllocError>
        ensures { IfOk result (λ entries. entries ≡ beyond_of self.now.entries peer.now) }
    {
        self.beyond_from(peer, 0)
    }

    /// The same where the cut covers the first `covered` entries. It looks at the later entries alone, as far as it
    /// needs.
    pub fn beyond_from(&self, peer: &Cut, covered: u32) -> Result<List<Tx>, AllocError>
        requires { IsCoveredTo self.now.entries peer.now covered }
        ensures { IfOk result (λ entries. entries ≡ beyond_of self.now.entries peer.now) }
    {
        let entries = self.entries();
        let beyond = first_uncovered(self.alloc, later(entries, covered), peer)?;
        Ok(List::from_vec(beyond))
    }

    /// The place of the first entry that the cut does not cover, or the number of entries where it covers all. It
    /// covers the first `covered` entries. It takes no memory.
    pub fn covered_to(&self, peer: &Cut, covered: u32) -> u32
        requires { IsCoveredTo self.now.entries peer.now covered }
        ensures covered { IsCoveredTo self.now.entries peer.now result }
        ensures next { (tx : TheTx) → slice_get self.now.entries result ≡ Some tx → is_covered peer.now tx.dot ≡ false }
    {
        let entries = self.entries();
        for place in covered..entries.len() {
            if !is_covered_at(entries, peer, place) {
                return place;
            }
        }
        entries.len()
    }
}

// The entries from this place on.
fn later(entries: &History, place: u32) -> &[Tx]
    requires { place ≤ length entries.now }
    ensures { result.now ≡ drop place entries.now }
{
    &entries.as_slice()[place as usize..]
}

// Whether the cut covers the entry in this place.
fn is_covered_at(entries: &History, cut: &Cut, place: u32) -> bool
    requires { place < length entries.now }
    ensures { (tx : TheTx) → slice_get entries.now place ≡ Some tx → result ≡ is_covered cut.now tx.dot }
{
    cut.covers(entries.as_slice()[place as usize].dot)
}

// The first member of `seen` that is no entry, with what stands in its place, or `None` where there is none.
fn first_parted(setting: &Setting, index: &Index, seen: &History) -> Option<Diverged>
    requires { IsIndexOf setting.now.spec index.now }
    ensures { MatchOption result (HasAll index.now.entries seen.now) (IsDivergence index.now.entries seen.now) }
{
    for tx in seen.as_slice() {
        if let Some(diverged) = parted(setting, index, tx) {
            return Some(diverged);
        }
    }
    None
}

// What stands in place of the transaction, or `None` where it is an entry.
fn parted(setting: &Setting, index: &Index, tx: &Tx) -> Option<Diverged>
    requires { IsIndexOf setting.now.spec index.now }
    ensures { MatchOption result (IsMember index.now.entries tx.now) (IsParted index.now.entries tx.now) }
{
    match entry_named(setting, index, tx.dot) {
        Some(there) => {
            if is_same(there, tx) {
                None
            } else {
                Some(Diverged {
                    dot: tx.dot,
                    mine: *tx,
                    theirs: Some(*there),
                })
            }
        }
        None => Some(Diverged {
            dot: tx.dot,
            mine: *tx,
            theirs: None,
        }),
    }
}

// The transactions that the cut does not cover, in order.
fn uncovered(alloc: Global, txs: &[Tx], cut: &Cut) -> Result<Vec<Tx>, AllocError>
    ensures { IfOk result (λ list. list.items ≡ filter (λ t. not (is_covered cut.now t.dot)) txs.now) }
{
    txs.iter()
        .filter(|tx| !cut.covers(tx.dot))
        .copied()
        .collect(alloc)
}

// The first 64 of them.
fn first_uncovered(alloc: Global, txs: &[Tx], cut: &Cut) -> Result<Vec<Tx>, AllocError>
    ensures { IfOk result (λ list. list.items ≡ beyond_of txs.now cut.now) }
{
    txs.iter()
        .filter(|tx| !cut.covers(tx.dot))
        .take(64)
        .copied()
        .collect(alloc)
}

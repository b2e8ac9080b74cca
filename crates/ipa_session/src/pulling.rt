//! What a session sees next: what a log has beyond it.
ghost use Rattle.std.specs.Prelude.{◌≡◌, List as Items, ◌++◌, OnOk, OnErr, IfErr};
ghost use Rattle.ipa_logic.specs.declared.facts.Fact.{Fact as TheFact};
ghost use Rattle.ipa_history.specs.Clocks.{IsClockOf};
ghost use Rattle.ipa_history.specs.Histories.{IsMember, IsHistory};
ghost use Rattle.ipa_history.specs.declared.history.Tx.{Tx as TheTx};
ghost use Rattle.ipa_sets.specs.FactSets.{IsFactsOf, IsReadyFor};
ghost use Rattle.ipa_gate.specs.Agreements.{HasAll, IsDivergence, news_of, IsReadTo, IfDiverged};
ghost use Rattle.ipa_gate.specs.Settings.{IsLegalFor};
ghost use Rattle.ipa_gate.specs.Shapes.{IsShaped};

use crate::session::{Session, take_in};
use ipa_clock::Cut;
use ipa_gate::{Log, PullFault};
use ipa_history::{History, Tx};
use ipa_sets::Facts;
use ipa_spec::{List, Spec};
use std::alloc::AllocError;

impl Session {
    /// Sees all that a log of its setting has beyond what it has seen. It is refused where it has seen a transaction
    /// that is no entry, with the first such one, and then it has seen what it had; so it has where memory is wanting.
    /// Room that it had may be gone.
    pub fn pull(&mut self, log: &Log) -> Result<(), PullFault>
        requires { log.now.setting ≡ self.old.setting }
        ensures seen { OnOk result (self.new.seen ≡ self.old.seen ++ news_of log.now.entries self.old.seen) }
        ensures agrees { OnOk result (HasAll log.now.entries self.old.seen) }
        ensures diverged { IfErr result (IfDiverged (IsDivergence log.now.entries self.old.seen)) }
        ensures kept { OnErr result (self.new.seen ≡ self.old.seen) }
        ensures setting { self.new.setting ≡ self.old.setting }
        ensures origin { self.new.origin ≡ self.old.origin }
    {
        log.agrees(self.seen())?;
        self.pull_from(log, 0)?;
        Ok(())
    }

    /// The same where it has seen no transaction that is no entry, and has seen the first `read` entries. It looks at
    /// the later entries alone. Then it has seen all entries.
    pub fn pull_from(&mut self, log: &Log, read: u32) -> Result<(), AllocError>
        requires setting { log.now.setting ≡ self.old.setting }
        requires agrees { HasAll log.now.entries self.old.seen }
        requires read { IsReadTo log.now.entries self.old.seen read }
        ensures seen { OnOk result (self.new.seen ≡ self.old.seen ++ news_of log.now.entries self.old.seen) }
        ensures all { OnOk result (HasAll self.new.seen log.now.entries) }
        ensures kept { OnErr result (self.new.seen ≡ self.old.seen) }
        ensures setting { self.new.setting ≡ self.old.setting }
        ensures origin { self.new.origin ≡ self.old.origin }
    {
        let _entries = log.entries();
        let cut = self.cut();
        let news = log.news_from(self.seen(), &cut, read)?;
        self.absorb(&news)?;
        Ok(())
    }

    /// Sees these transactions too, which have the right shape and leave a legal history of its setting at the end of
    /// what it has seen. Where memory is wanting, it has seen what it had. Room that it had may be gone.
    pub fn absorb(&mut self, news: &List<Tx>) -> Result<(), AllocError>
        requires legal { IsLegalFor self.old.setting (self.old.seen ++ news.now) }
        requires shaped { (t : TheTx) → IsMember news.now t → IsShaped self.old.setting t }
        ensures seen { OnOk result (self.new.seen ≡ self.old.seen ++ news.now) }
        ensures kept { OnErr result (self.new.seen ≡ self.old.seen) }
        ensures setting { self.new.setting ≡ self.old.setting }
        ensures origin { self.new.origin ≡ self.old.origin }
    {
        let calm = self.risen_calm();
        self.spare = 0;
        let spec = self.setting.accepted().spec();
        prepare_all(&mut self.facts, spec, news.as_slice())?;
        let cut = cut_with(&self.seen, &self.cut, news.as_slice());
        self.seen.extend(news.as_slice())?;
        take_all(&mut self.facts, spec, news.as_slice());
        self.cut = cut;
        self.calm = calm;
        Ok(())
    }
}

// Makes the facts ready for each of the transactions. They stand for the same, also where memory is wanting.
fn prepare_all(facts: &mut Facts, spec: &Spec, news: &[Tx]) -> Result<(), AllocError>
    ensures ready { OnOk result ((t : TheTx) → IsMember news.now t → IsReadyFor spec.now t facts.new) }
    ensures same { (base : Items TheFact) (taken : Items TheTx) → IsFactsOf spec.now base taken facts.old →
        IsFactsOf spec.now base taken facts.new }
{
    for tx in news {
        facts.prepare(spec, tx)?;
    }
    Ok(())
}

// Takes the transactions into the facts, which are ready for each of them.
fn take_all(facts: &mut Facts, spec: &Spec, news: &[Tx])
    requires { (t : TheTx) → IsMember news.now t → IsReadyFor spec.now t facts.old }
    ensures { (base : Items TheFact) (taken : Items TheTx) → IsFactsOf spec.now base taken facts.old →
        IsHistory (taken ++ news.now) → IsFactsOf spec.now base (taken ++ news.now) facts.new }
{
    for tx in news {
        take_in(facts, spec, tx);
    }
}

// The cut of the seen history, raised by each of the transactions at its end.
fn cut_with(seen: &History, cut: &Cut, news: &[Tx]) -> Cut
    requires clock { IsClockOf seen.now cut.now }
    requires history { IsHistory (seen.now ++ news.now) }
    ensures { IsClockOf (seen.now ++ news.now) result }
{
    let _formed = seen.as_slice();
    let mut raised = *cut;
    for tx in news {
        raised = raised.raised(tx.dot);
    }
    raised
}

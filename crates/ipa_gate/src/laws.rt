//! What holds of every log. These functions compute nothing: their contracts are the laws.
ghost use Rattle.std.specs.Prelude.{◌≡◌, ◌↔◌, ℕ, ◌+◌, ◌*◌, ◌≤◌, length};
ghost use Rattle.ipa_logic.specs.Truth.{Keeps};
ghost use Rattle.ipa_logic.specs.declared.facts.Fact.{Fact as TheFact};
ghost use Rattle.ipa_history.specs.Histories.{IsClosed};
ghost use Rattle.ipa_history.specs.Values.{value_at};
ghost use Rattle.ipa_history.specs.Ages.{age_at, IsDropAt};
ghost use Rattle.ipa_lift.specs.CutLaws.{Agree};
ghost use Rattle.ipa_lift.specs.FewDrops.{drops_of, operations_of};

use crate::log::Log;
use ipa_clock::Cut;
use ipa_spec::laws::spec_is_fit;

/// Every closed cut of a log keeps all clauses, also one that no session has ever read.
pub fn law_log_keeps(log: &Log, cut: &Cut)
    requires { IsClosed log.now.entries cut.now }
    ensures { Keeps log.now.setting.spec log.now.setting.universe
        (value_at log.now.setting.spec log.now.setting.base log.now.entries cut.now) }
{
    spec_is_fit(log.setting().accepted().spec());
    let _entries = log.entries();
}

/// Two logs of one setting with the same transactions in a cut have the same state there, the same ages and the same
/// due drops.
pub fn law_equal_cuts(one: &Log, two: &Log, cut: &Cut)
    requires setting { one.now.setting ≡ two.now.setting }
    requires agree { Agree one.now.entries two.now.entries cut.now }
    ensures values { (f : TheFact) →
        value_at one.now.setting.spec one.now.setting.base one.now.entries cut.now f
        ≡ value_at two.now.setting.spec two.now.setting.base two.now.entries cut.now f }
    ensures ages { (f : TheFact) → age_at one.now.setting.spec one.now.entries cut.now f
        ≡ age_at two.now.setting.spec two.now.entries cut.now f }
    ensures drops { (n : ℕ) (f : TheFact) →
        IsDropAt one.now.setting.spec one.now.setting.base one.now.entries cut.now n f
        ↔ IsDropAt two.now.setting.spec two.now.setting.base two.now.entries cut.now n f }
{}

/// The drops of one origin are at most as many as the facts of the base and twelve for each operation.
pub fn law_drops_are_few(log: &Log, origin: u8)
    ensures { length (drops_of origin log.now.entries)
        ≤ length log.now.setting.base + 12 * length (operations_of log.now.entries) }
{
    spec_is_fit(log.setting().accepted().spec());
    let _entries = log.entries();
}

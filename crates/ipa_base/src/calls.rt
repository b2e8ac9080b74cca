//! The calls of a source or a sink in memory: which of them fail, and how many there were.
ghost use Rattle.std.specs.Prelude.{◌≡◌, ◌↔◌, IsTrue, IsErr, Contains, is_err, if◌then◌else◌};
ghost use Rattle.ipa_base.specs.Faults.{next_count};

use crate::Failed;

#[derive(Drop)]
pub struct Calls {
    pub failing: Vec<u32>,
    pub count: u64,
    pub faults: u64,
}

impl Calls {
    pub fn new(failing: Vec<u32>) -> Calls
        ensures failing { result.failing.items ≡ failing.items }
        ensures count { result.count ≡ 0 }
        ensures faults { result.faults ≡ 0 }
    {
        Calls {
            failing,
            count: 0,
            faults: 0,
        }
    }

    /// Counts one more call. It fails where it is one of those that are to fail.
    pub fn begin(&mut self) -> Result<(), Failed>
        ensures fails { IsErr result ↔ Contains self.old.failing.items (next_count self.old.count) }
        ensures failing { self.new.failing ≡ self.old.failing }
        ensures count { self.new.count ≡ next_count self.old.count }
        ensures faults { self.new.faults ≡
            (if is_err result then next_count self.old.faults else self.old.faults) }
    {
        self.count = self.count.saturating_add(1);
        if is_listed(&self.failing, self.count) {
            return Err(self.fault());
        }
        Ok(())
    }

    /// Counts one more fault.
    pub fn fault(&mut self) -> Failed
        ensures { self.new ≡ record self.old { faults = next_count self.old.faults } }
    {
        self.faults = self.faults.saturating_add(1);
        Failed
    }
}

fn is_listed(numbers: &[u32], number: u64) -> bool
    ensures { IsTrue result ↔ Contains numbers.now number }
{
    numbers.iter().any(|listed| u64::from(*listed) == number)
}

//! What comes to a replica as bytes.
ghost use Rattle.std.specs.Prelude.{◌≡◌, Err, OnOk, OnErr};
ghost use Rattle.ipa_history.specs.declared.history.Tx.{Tx as TheTx};
ghost use Rattle.ipa_world.specs.Seats.{IsGivable, IsGivenTo, IsTooMuch};
ghost use Rattle.ipa_world.specs.Arrivals.{IsFrameOf, IsBorne, IsArrival, BringsGivable};

use crate::giving::left;
use crate::steps::WorldFault;
use crate::world::World;
use ipa_frame::laws::one_frame;
use ipa_gate::Log;
use ipa_link::laws::written_is_received;
use ipa_link::{Delivered, deliver_admitted};

impl World {
    ghost use Rattle.ipa_world.specs.Steps.{IsGiven};
    ghost use Rattle.ipa_world.specs.Room.{IsGiveFull};

    /// A replica is given the entry of another replica's log whose frame these bytes are.
    pub fn receive(&mut self, from: u8, to: u8, bytes: &[u8]) -> Result<(), WorldFault>
        requires { IsArrival self.old from to bytes.now }
        ensures given { (tx : TheTx) → IsBorne self.old from tx bytes.now → OnOk result (IsGiven self.old to tx self.new) }
        ensures full { (tx : TheTx) → IsBorne self.old from tx bytes.now → result ≡ Err WorldFault.Full →
            IsGiveFull self.old to tx }
        ensures room { (tx : TheTx) → IsBorne self.old from tx bytes.now → OnOk result (IsGiveFull self.old to tx → ⊥) }
        ensures unchanged { OnErr result (self.new ≡ self.old) }
        ensures setting { self.new.setting ≡ self.old.setting }
    {
        let _sender = self.log(from);
        let log = &mut self.logs[to as usize];
        let brought = bring(log, bytes);
        let _entries = log.entries();
        brought
    }
}

// Gives the log the transaction of its world whose frame these bytes are. It is legal where it is news.
fn bring(log: &mut Log, bytes: &[u8]) -> Result<(), WorldFault>
    requires { BringsGivable log.old.setting log.old.entries bytes.now }
    ensures given { (tx : TheTx) → IsFrameOf tx bytes.now → IsGivable log.old.setting log.old.entries tx →
        OnOk result (IsGivenTo log.old.entries tx log.new.entries) }
    ensures full { (tx : TheTx) → IsFrameOf tx bytes.now → IsGivable log.old.setting log.old.entries tx →
        result ≡ Err WorldFault.Full → IsTooMuch log.old.entries tx }
    ensures unchanged { OnErr result (log.new.entries ≡ log.old.entries) }
    ensures setting { log.new.setting ≡ log.old.setting }
{
    written_is_received();
    one_frame();
    match deliver_admitted(log, bytes) {
        Delivered::Taken(_) => Ok(()),
        Delivered::Refused(fault) => left(fault),
        Delivered::Heard(_) => unreachable!(),
        Delivered::Garbled(_) => unreachable!(),
    }
}

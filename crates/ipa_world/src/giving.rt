//! How a log is given a transaction of its world.
ghost use Rattle.std.specs.Prelude.{◌≡◌, Err, OnOk, OnErr};
ghost use Rattle.ipa_world.specs.Seats.{IsGivable, IsGivenTo, IsTooMuch, ComesInWorlds, left_of};

use crate::steps::WorldFault;
use ipa_gate::{Log, OfferFault};
use ipa_history::Tx;

// Gives the log a transaction of its world: where it is news, the log takes it; else nothing changes. It is legal where
// it is news, so it is not judged again.
pub(crate) fn give(log: &mut Log, tx: Tx) -> Result<(), WorldFault>
    requires { IsGivable log.old.setting log.old.entries tx }
    ensures given { OnOk result (IsGivenTo log.old.entries tx log.new.entries) }
    ensures full { result ≡ Err WorldFault.Full → IsTooMuch log.old.entries tx }
    ensures unchanged { OnErr result (log.new.entries ≡ log.old.entries) }
    ensures setting { log.new.setting ≡ log.old.setting }
{
    match log.admit(tx) {
        Ok(_) => Ok(()),
        Err(fault) => left(fault),
    }
}

// What a fault of an offer is in a world: a gap is none.
pub(crate) fn left(fault: OfferFault) -> Result<(), WorldFault>
    requires { ComesInWorlds fault }
    ensures { result ≡ left_of fault }
{
    match fault {
        OfferFault::Gap { .. } => Ok(()),
        OfferFault::Full => Err(WorldFault::Full),
        OfferFault::NoMemory => Err(WorldFault::NoMemory),
        OfferFault::Shape
        | OfferFault::Differs { .. }
        | OfferFault::OpenCut { .. }
        | OfferFault::Illegal(_) => unreachable!(),
    }
}

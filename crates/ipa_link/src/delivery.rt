//! One frame that came.
ghost use Rattle.std.specs.Prelude.{◌≡◌, IsTrue, IfOk, IfErr, OnErr, MatchResult, length};
ghost use Rattle.ipa_gate.specs.Offers.{IsNextIn, IsTakenAs, IsOfferFault, entries_after};
ghost use Rattle.ipa_history.specs.Legality.{IsLegal};
ghost use Rattle.ipa_history.specs.declared.history.Tx.{Tx as TheTx};
ghost use Rattle.ipa_frame.specs.Frames.{IsRead};
ghost use Rattle.ipa_frame.specs.declared.frame.Frame.TheVariants.{Carry};
ghost use Rattle.ipa_link.specs.Deliveries.{IsAnswered, entries_left, IsGarbled, IsDelivery, IfUnoffered};

use ipa_clock::Cut;
use ipa_frame::{Frame, FrameFault, read_frame};
use ipa_gate::{Log, OfferFault, Taken};
use ipa_history::Tx;

/// What came of a delivery.
#[derive(Clone, Copy)]
pub enum Delivered {
    /// The log took the transaction, or had it already.
    Taken(Taken),
    /// The log refused the transaction.
    Refused(OfferFault),
    /// The sender of the frame has these transactions.
    Heard(Cut),
    /// The bytes are not one frame.
    Garbled(FrameFault),
}

/// Gives the log what came: the bytes of one frame. What the frame carries is offered to the log; where it tells what
/// its sender has, and where the bytes are not one frame, the log stays as it was. Bytes after a frame are a bad
/// length.
pub fn deliver(log: &mut Log, bytes: &[u8]) -> Delivered
    // The answer is that of the offer, or of the reading; and the entries are those that the offer leaves.
    ensures delivery { IsDelivery log.old.setting log.old.entries bytes.now result log.new.entries }
    ensures setting { log.new.setting ≡ log.old.setting }
    // Where nothing was offered, nothing at all is changed.
    ensures unchanged { IfUnoffered result (log.new ≡ log.old) }
{
    deliver_as(log, bytes, false)
}

/// The same where what the frame carries, if it comes next in the log, is known to be legal there: it is not judged.
pub fn deliver_admitted(log: &mut Log, bytes: &[u8]) -> Delivered
    requires legal { (tx : TheTx) → IsRead bytes.now (Carry tx) (length bytes.now) →
        IsNextIn log.old.setting log.old.entries tx →
        IsLegal log.old.setting.spec log.old.setting.universe log.old.setting.base log.old.entries tx }
    ensures delivery { IsDelivery log.old.setting log.old.entries bytes.now result log.new.entries }
    ensures setting { log.new.setting ≡ log.old.setting }
    ensures unchanged { IfUnoffered result (log.new ≡ log.old) }
{
    deliver_as(log, bytes, true)
}

// The same, with or without that knowledge.
fn deliver_as(log: &mut Log, bytes: &[u8], is_legal: bool) -> Delivered
    requires legal { IsTrue is_legal → (tx : TheTx) → IsRead bytes.now (Carry tx) (length bytes.now) →
        IsNextIn log.old.setting log.old.entries tx →
        IsLegal log.old.setting.spec log.old.setting.universe log.old.setting.base log.old.entries tx }
    ensures delivery { IsDelivery log.old.setting log.old.entries bytes.now result log.new.entries }
    ensures setting { log.new.setting ≡ log.old.setting }
    ensures unchanged { IfUnoffered result (log.new ≡ log.old) }
{
    match whole_frame(bytes) {
        Ok(frame) => receive(log, frame, is_legal),
        Err(fault) => Delivered::Garbled(fault),
    }
}

// The frame that fills the bytes.
fn whole_frame(bytes: &[u8]) -> Result<Frame, FrameFault>
    ensures { MatchResult result (λ frame. IsRead bytes.now frame (length bytes.now)) (IsGarbled bytes.now) }
{
    let (frame, size) = read_frame(bytes)?;
    if size < bytes.len() {
        return Err(FrameFault::BadLength);
    }
    Ok(frame)
}

// What the log makes of a frame. What it carries may be known to be legal where it comes next.
pub(crate) fn receive(log: &mut Log, frame: Frame, is_legal: bool) -> Delivered
    requires legal { IsTrue is_legal → (tx : TheTx) → frame ≡ Carry tx →
        IsNextIn log.old.setting log.old.entries tx →
        IsLegal log.old.setting.spec log.old.setting.universe log.old.setting.base log.old.entries tx }
    ensures answered { IsAnswered log.old.setting log.old.entries frame result }
    ensures entries { log.new.entries ≡ entries_left log.old.entries frame result }
    ensures setting { log.new.setting ≡ log.old.setting }
    ensures unchanged { IfUnoffered result (log.new ≡ log.old) }
{
    match frame {
        Frame::Carry(tx) => offered(log, tx, is_legal),
        Frame::Have(cut) => Delivered::Heard(cut),
    }
}

// What the log answers the offer of a transaction.
fn offered(log: &mut Log, tx: Tx, is_legal: bool) -> Delivered
    requires legal { IsTrue is_legal → IsNextIn log.old.setting log.old.entries tx →
        IsLegal log.old.setting.spec log.old.setting.universe log.old.setting.base log.old.entries tx }
    ensures answered { IsAnswered log.old.setting log.old.entries (Carry tx) result }
    ensures entries { log.new.entries ≡ entries_left log.old.entries (Carry tx) result }
    ensures setting { log.new.setting ≡ log.old.setting }
    ensures unchanged { IfUnoffered result (log.new ≡ log.old) }
{
    match taken(log, tx, is_legal) {
        Ok(taken) => Delivered::Taken(taken),
        Err(fault) => Delivered::Refused(fault),
    }
}

// The log takes the transaction, which may be known to be legal where it comes next.
fn taken(log: &mut Log, tx: Tx, is_legal: bool) -> Result<Taken, OfferFault>
    requires legal { IsTrue is_legal → IsNextIn log.old.setting log.old.entries tx →
        IsLegal log.old.setting.spec log.old.setting.universe log.old.setting.base log.old.entries tx }
    ensures taken { IfOk result (IsTakenAs log.old.setting log.old.entries tx) }
    ensures entries { IfOk result (λ taken. log.new.entries ≡ entries_after log.old.entries tx taken) }
    ensures refused { IfErr result (IsOfferFault log.old.setting log.old.entries tx) }
    ensures kept { OnErr result (log.new.entries ≡ log.old.entries) }
    ensures setting { log.new.setting ≡ log.old.setting }
{
    if is_legal {
        log.admit(tx)
    } else {
        log.offer(tx)
    }
}

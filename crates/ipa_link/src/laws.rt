//! The laws of deliveries and pours. Each function does nothing but name the law of frames: its contract is the law.
ghost use Rattle.ipa_link.specs.Laws.{OneFault, NoneIsRefused, OneStop, WrittenIsReceived};

use ipa_frame::laws::one_frame;

/// Bytes have one fault at most, and none where a frame stands at their front. So a pour that has read so many of some
/// bytes stops in one way: at the end exactly where no bytes are left, and as garbled exactly where bytes are left that
/// have this fault.
pub fn one_stop()
    ensures fault { OneFault }
    ensures read { NoneIsRefused }
    ensures stop { OneStop }
{
    one_frame();
}

/// The delivery of the bytes of a frame is answered as the frame is: a transaction that one replica writes is offered,
/// and no other.
pub fn written_is_received()
    ensures { WrittenIsReceived }
{
    one_frame();
}

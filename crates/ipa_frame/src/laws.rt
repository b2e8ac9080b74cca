//! The law of frames. The function does nothing: its contract is the law.
ghost use Rattle.ipa_frame.specs.Laws.{OneFrame};

/// Where a frame stands at the front of some bytes, no other frame agrees with them: none begins them, and they are
/// the front of none. So each byte string that is read has one answer, and what is written is read again, whatever
/// follows it.
pub fn one_frame()
    ensures { OneFrame }
{}

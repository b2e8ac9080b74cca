//! The offers of the race.
use crate::race::setting_of;
use ipa_clock::{Cut, Dot};
use ipa_gate::{Log, OfferFault, Taken};
use ipa_history::{History, Tx};
use ipa_spec::Action;
use std::test::Fail;

/// The transaction that enrols the player in the cup.
fn enrolled(origin: u8, number: u32, counts: [u32; 3], player: u16) -> Tx {
    let mut cut = Cut::empty();
    for place in 0..3 {
        cut.counts[place] = counts[place];
    }
    Tx {
        dot: Dot { origin, number },
        cut,
        action: Action::Op(0),
        args: [player, 0, 0, 0],
        count: 2,
    }
}

/// A word for a refusal.
fn fault_word(fault: &OfferFault) -> &'static str {
    match fault {
        OfferFault::Shape => "shape",
        OfferFault::Differs { .. } => "differs",
        OfferFault::Gap { .. } => "gap",
        OfferFault::OpenCut { .. } => "open cut",
        OfferFault::Full => "full",
        OfferFault::Illegal(_) => "illegal",
        OfferFault::NoMemory => "no memory",
    }
}

/// A word for an answer.
fn word(answer: &Result<Taken, OfferFault>) -> &'static str {
    match answer {
        Ok(Taken::New) => "new",
        Ok(Taken::Known) => "known",
        Err(fault) => fault_word(fault),
    }
}

/// What the offer is answered, in a word.
fn told(log: &mut Log, origin: u8, number: u32, counts: [u32; 3], player: u16) -> &'static str {
    word(&log.offer(enrolled(origin, number, counts, player)))
}

#[test]
fn answers_the_worked_offers(rt: HostRuntime) -> Result<(), Fail> {
    let mut log = Log::new(rt.alloc(), setting_of(&rt, 3)?);
    assert_eq!(rt; told(&mut log, 0, 1, [0, 0, 0], 0), "new");
    assert_eq!(rt; told(&mut log, 1, 1, [1, 0, 0], 0), "new");
    assert_eq!(rt; told(&mut log, 0, 1, [0, 0, 0], 0), "known");
    assert_eq!(rt; told(&mut log, 0, 1, [0, 0, 0], 1), "differs");
    assert_eq!(rt; told(&mut log, 2, 2, [0, 0, 1], 0), "gap");
    Ok(())
}

#[test]
fn refuses_open_cuts_and_what_is_over(rt: HostRuntime) -> Result<(), Fail> {
    let mut log = Log::new(rt.alloc(), setting_of(&rt, 3)?);
    assert_eq!(rt; told(&mut log, 0, 1, [0, 0, 0], 0), "new");
    assert_eq!(rt; told(&mut log, 1, 1, [1, 0, 0], 0), "new");
    assert_eq!(rt; told(&mut log, 2, 1, [0, 1, 0], 0), "open cut");
    assert_eq!(rt; told(&mut log, 2, 1, [1, 0, 0], 1), "illegal");
    assert_eq!(rt; told(&mut log, 2, 1, [1, 0, 0], 3), "shape");
    Ok(())
}

#[test]
fn tells_what_others_lack(rt: HostRuntime) -> Result<(), Fail> {
    let mut log = Log::new(rt.alloc(), setting_of(&rt, 3)?);
    let first = enrolled(0, 1, [0, 0, 0], 0);
    assert_eq!(rt; word(&log.test(&first)), "new");
    assert_eq!(rt; word(&log.offer(first)), "new");
    assert_eq!(rt; told(&mut log, 1, 1, [0, 0, 0], 1), "new");
    assert_eq!(rt; log.beyond(&log.clock())?.len(), 0);
    assert_eq!(rt; log.beyond(&Cut::empty())?.len(), 2);
    Ok(())
}

#[test]
fn an_empty_history_lacks_all(rt: HostRuntime) -> Result<(), Fail> {
    let mut log = Log::new(rt.alloc(), setting_of(&rt, 3)?);
    assert_eq!(rt; told(&mut log, 0, 1, [0, 0, 0], 0), "new");
    let seen = History::new(rt.alloc());
    assert!(rt; log.agrees(&seen).is_ok());
    let news = log.news(&seen).ok().ok_or("an empty history agrees")?;
    assert_eq!(rt; news.len(), 1);
    Ok(())
}

/// Whether so many offers of one session are new, one after the other.
fn fills(log: &mut Log, count: u32) -> bool {
    for number in 0..count {
        if told(log, 0, number.saturating_add(1), [number, 0, 0], 0) != "new" {
            return false;
        }
    }
    true
}

#[test]
fn is_full_with_65536_entries(rt: HostRuntime) -> Result<(), Fail> {
    let mut log = Log::new(rt.alloc(), setting_of(&rt, 1)?);
    assert!(rt; fills(&mut log, 65536));
    assert_eq!(rt; told(&mut log, 0, 65537, [65536, 0, 0], 0), "full");
    Ok(())
}

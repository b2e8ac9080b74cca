//! Fates of known weathers, what arrives of batches, and the words that name a kind of weather.
use crate::frames::{bytes_of, frames_of};
use ipa_history::Fate;
use ipa_spec::List;
use ipa_weather::{
    Arrived, Clear, Kind, Lossy, Script, Split, Weather, kind_of, pass_all, pass_one,
};
use std::test::Fail;

/// A frame that is held arrives after the next batch, one that is doubled arrives twice in a row.
#[test]
fn a_held_frame_arrives_after_the_next_batch(rt: HostRuntime) -> Result<(), Fail> {
    let alloc = rt.alloc();
    let fates = vec![in alloc; Fate::Hold, Fate::Twice, Fate::Lose, Fate::Pass]?;
    let mut weather: Box<dyn Weather + Send> = Box::new(alloc, Script::new(fates))?;
    let mut held = List::new(alloc);
    let arrived = pass_all(
        alloc,
        &mut weather,
        frames_of(alloc, &[1, 2, 3])?,
        &mut held,
    )?;
    assert_eq!(rt;
        bytes_of(alloc, &arrived.frames)?.as_slice(),
        [2, 2].as_slice()
    );
    assert_eq!(rt;
        arrived.fates.as_slice(),
        [Fate::Hold, Fate::Twice, Fate::Lose].as_slice()
    );
    assert_eq!(rt; bytes_of(alloc, &held)?.as_slice(), [1].as_slice());
    let arrived = pass_all(alloc, &mut weather, frames_of(alloc, &[4])?, &mut held)?;
    assert_eq!(rt;
        bytes_of(alloc, &arrived.frames)?.as_slice(),
        [4, 1].as_slice()
    );
    assert_eq!(rt; arrived.fates.as_slice(), [Fate::Pass].as_slice());
    assert!(rt; held.is_empty());
    Ok(())
}

/// Frames that are held arrive in the order in which they were held, and without a further fate.
#[test]
fn held_frames_keep_their_order(rt: HostRuntime) -> Result<(), Fail> {
    let alloc = rt.alloc();
    let mut weather: Box<dyn Weather + Send> = Box::new(alloc, Split::new(0, 3))?;
    let mut held = List::new(alloc);
    let arrived = pass_all(
        alloc,
        &mut weather,
        frames_of(alloc, &[1, 2, 3])?,
        &mut held,
    )?;
    assert!(rt; arrived.frames.is_empty());
    let arrived = pass_all(alloc, &mut weather, frames_of(alloc, &[4, 5])?, &mut held)?;
    assert_eq!(rt;
        bytes_of(alloc, &arrived.frames)?.as_slice(),
        [4, 5, 1, 2, 3].as_slice()
    );
    assert_eq!(rt; arrived.fates.len(), 2);
    assert!(rt; held.is_empty());
    Ok(())
}

/// Frames that are sent one by one are appended to what has arrived and to what is held.
#[test]
fn one_frame_is_appended(rt: HostRuntime) -> Result<(), Fail> {
    let alloc = rt.alloc();
    let fates = vec![in alloc; Fate::Twice, Fate::Hold]?;
    let mut weather: Box<dyn Weather + Send> = Box::new(alloc, Script::new(fates))?;
    let mut arrived = Arrived {
        frames: List::new(alloc),
        fates: List::new(alloc),
    };
    let mut held = List::new(alloc);
    for byte in [1, 2, 3] {
        let frame = List::from_vec(vec![in alloc; byte]?);
        pass_one(alloc, &mut weather, frame, &mut arrived, &mut held)?;
    }
    assert_eq!(rt;
        bytes_of(alloc, &arrived.frames)?.as_slice(),
        [1, 1, 3].as_slice()
    );
    assert_eq!(rt;
        arrived.fates.as_slice(),
        [Fate::Twice, Fate::Hold, Fate::Pass].as_slice()
    );
    assert_eq!(rt; bytes_of(alloc, &held)?.as_slice(), [2].as_slice());
    Ok(())
}

/// The first six words of the reference program of the generator, for state 42 and stream 54, are a15c02b7, 7b47f409,
/// ba1d3330, 83d2f293, bfa4784b and cbed606e in hexadecimal.
#[test]
fn a_lossy_weather_takes_one_word_a_fate(rt: HostRuntime) -> Result<(), Fail> {
    let mut weather = Lossy::new(42, 54);
    for want in [
        Fate::Pass,
        Fate::Twice,
        Fate::Lose,
        Fate::Pass,
        Fate::Pass,
        Fate::Pass,
    ] {
        assert_eq!(rt; weather.fate(), want);
    }
    Ok(())
}

#[test]
fn a_split_weather_holds_between_its_bounds(rt: HostRuntime) -> Result<(), Fail> {
    let mut weather = Split::new(1, 3);
    for want in [Fate::Pass, Fate::Hold, Fate::Hold, Fate::Pass, Fate::Pass] {
        assert_eq!(rt; weather.fate(), want);
    }
    Ok(())
}

#[test]
fn in_clear_weather_all_frames_pass(rt: HostRuntime) -> Result<(), Fail> {
    let mut weather = Clear::new();
    for _ in 0..3u8 {
        assert_eq!(rt; weather.fate(), Fate::Pass);
    }
    Ok(())
}

/// The three forms of a word, and words that are nearly one.
#[test]
fn words_name_kinds(rt: HostRuntime) -> Result<(), Fail> {
    for (word, want) in [
        ("clear", Some(Kind::Clear)),
        ("lossy:0", Some(Kind::Lossy(0))),
        ("lossy:7", Some(Kind::Lossy(7))),
        (
            "lossy:18446744073709551615",
            Some(Kind::Lossy(18446744073709551615)),
        ),
        ("split:0:1", Some(Kind::Split(0, 1))),
        ("split:10:2", Some(Kind::Split(10, 2))),
        ("split:4294967295:0", Some(Kind::Split(4294967295, 0))),
        ("", None),
        ("Clear", None),
        ("clear ", None),
        ("clear:", None),
        ("lossy", None),
        ("lossy:", None),
        ("lossy:07", None),
        ("lossy:00", None),
        ("lossy:+7", None),
        ("lossy:-7", None),
        ("lossy: 7", None),
        ("lossy:7:1", None),
        ("lossy:18446744073709551616", None),
        ("split:1", None),
        ("split::", None),
        ("split:1:", None),
        ("split::1", None),
        ("split:01:1", None),
        ("split:1:01", None),
        ("split:1:2:3", None),
        ("split:1:+2", None),
        ("split:4294967296:0", None),
        ("split:0:4294967296", None),
    ] {
        assert_eq!(rt; kind_of(word), want, "at {word}");
    }
    Ok(())
}

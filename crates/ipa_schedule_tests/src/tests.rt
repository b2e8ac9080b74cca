//! Ends of the race, at once and with weathers that are replaced between turns.
ghost use Rattle.std.specs.Prelude.{◌≡◌, length};

use crate::losing::{clear_weathers, losing_weathers};
use crate::race::world_of;
use ipa_history::{SimEnd, Tx};
use ipa_schedule::{Run, Turned, run_schedule};
use ipa_spec::Action;
use ipa_weather::Weather;
use std::sync::Arc;
use std::sync::atomic::{AtomicU64, Ordering};
use std::test::Fail;

/// A session's number, that of its transaction, whether it is an operation, and the player.
type Row = (u8, u32, bool, u16);

/// What a transaction is.
fn row_of(tx: &Tx) -> Row {
    let operation = match tx.action {
        Action::Op(_) => true,
        Action::Drop(_) => false,
    };
    (tx.dot.origin, tx.dot.number, operation, tx.args[0])
}

/// Whether these are the entries of the end.
fn has_rows(end: &SimEnd, rows: &[Row]) -> bool {
    let entries = end.entries.as_slice();
    entries.len() == rows.len() && entries.iter().zip(rows).all(|(tx, row)| row_of(tx) == *row)
}

/// In clear weather both sessions make the drop, as neither knows of the other's.
#[test]
fn both_make_the_drop(rt: HostRuntime) -> Result<(), Fail> {
    let mut world = world_of(&rt)?;
    let mut weathers = clear_weathers(rt.alloc())?;
    let Ok(end) = run_schedule(&mut world, 0, &mut weathers) else {
        return Err(Fail::from("the schedule ends"));
    };
    assert!(rt;
        has_rows(
            &end,
            &[
                (0, 1, true, 0),
                (1, 1, true, 1),
                (0, 2, false, 1),
                (1, 2, false, 1)
            ]
        )
    );
    Ok(())
}

/// Takes so many turns.
fn take_turns(run: &mut Run, weathers: &mut Vec<Box<dyn Weather + Send>>, count: u32) -> bool
    requires { length weathers.old.items ≡ 64 }
    ensures { length weathers.new.items ≡ 64 }
{
    for turn in 0..count {
        let Ok(Turned::More) = run.turn(weathers) else {
            return false;
        };
    }
    true
}

/// Takes the turns that are left, up to a hundred, and settles.
fn end_of(mut run: Run, weathers: &mut Vec<Box<dyn Weather + Send>>) -> Option<SimEnd>
    requires { length weathers.old.items ≡ 64 }
{
    for turn in 0..100u32 {
        match run.turn(weathers) {
            Ok(Turned::More) => {}
            Ok(Turned::Ended) => return run.finish().ok(),
            Err(_) => return None,
        }
    }
    None
}

/// All is lost until the fourth turn, after which the weathers are replaced by clear ones: each was dropped once by then,
/// and the run ends as it does where all is lost until it settles.
#[test]
fn replaced_weathers_are_dropped(rt: HostRuntime) -> Result<(), Fail> {
    let alloc = rt.alloc();
    let drops = Arc::new(alloc, AtomicU64::new(0))?;
    let mut run = Run::new(alloc, world_of(&rt)?, 0)?;
    let mut weathers = losing_weathers(alloc, &drops)?;
    assert!(rt; take_turns(&mut run, &mut weathers, 4));
    weathers = clear_weathers(alloc)?;
    assert_eq!(rt; drops.load(Ordering::SeqCst), 64);
    let Some(end) = end_of(run, &mut weathers) else {
        return Err(Fail::from("the run ends"));
    };
    assert!(rt; has_rows(&end, &[(0, 1, true, 0), (1, 1, true, 1), (0, 2, false, 1)]));
    Ok(())
}

//! What a session that has seen a transaction finds in logs that have it, lack it, or have another one under its dot.
ghost use Rattle.std.specs.Prelude.{◌≡◌, IfOk};

use crate::alone::session_of;
use crate::documents::{RACE, document_of, setting_for};
use ipa_clock::{Cut, Dot};
use ipa_gate::{Diverged, Log, PullFault, Setting, Taken};
use ipa_history::Tx;
use ipa_session::Session;
use ipa_spec::Action;
use std::alloc::Global;
use std::test::Fail;

/// The number of the dot, the player that the session has seen there, and the player that the log has there.
type Found = (u32, u16, Option<u16>);

/// The first transaction of the only origin, which enrols the player.
fn enrolment(player: u16) -> Tx {
    Tx {
        dot: Dot {
            origin: 0,
            number: 1,
        },
        cut: Cut::empty(),
        action: Action::Op(0),
        args: [player, 0, 0, 0],
        count: 2,
    }
}

/// A log of the setting that has the enrolment of this player, if there is one, and nothing else.
fn log_of(alloc: Global, setting: &Setting, player: Option<u16>) -> Result<Log, Fail>
    ensures { IfOk result (λ log. log.setting ≡ setting.now) }
{
    let mut log = Log::new(alloc, setting.copy()?);
    if let Some(player) = player {
        let Ok(Taken::New) = log.offer(enrolment(player)) else {
            return Err(Fail::from("the log takes the enrolment"));
        };
    }
    Ok(log)
}

/// The session of the setting that has seen the enrolment of the first player.
fn informed_session(alloc: Global, setting: &Setting) -> Result<Session, Fail>
    ensures { IfOk result (λ session. session.setting ≡ setting.now) }
{
    let mut session = session_of(alloc, setting.copy()?)?;
    let log = log_of(alloc, setting, Some(0))?;
    let Ok(()) = session.pull(&log) else {
        return Err(Fail::from("the session sees the enrolment"));
    };
    Ok(session)
}

/// What is found.
fn told(diverged: &Diverged) -> Found {
    let theirs = match diverged.theirs {
        Some(tx) => Some(tx.args[0]),
        None => None,
    };
    (diverged.dot.number, diverged.mine.args[0], theirs)
}

/// What that session finds in the log with the enrolment of this player.
fn found(alloc: Global, setting: &Setting, player: Option<u16>) -> Result<Option<Found>, Fail> {
    let mut session = informed_session(alloc, setting)?;
    let log = log_of(alloc, setting, player)?;
    match session.pull(&log) {
        Ok(()) => Ok(None),
        Err(PullFault::Diverged(diverged)) => Ok(Some(told(&diverged))),
        Err(PullFault::NoMemory) => Err(Fail::from("memory is left")),
    }
}

#[test]
fn finds_what_it_has_seen_and_a_log_lacks(rt: HostRuntime) -> Result<(), Fail> {
    let alloc = rt.alloc();
    let document = document_of(alloc, RACE)?;
    let setting = setting_for(&rt, &document)?;
    for (player, want) in [
        (Some(0), None),
        (None, Some((1, 0, None))),
        (Some(1), Some((1, 0, Some(1)))),
    ] {
        assert_eq!(rt; found(alloc, &setting, player)?, want);
    }
    Ok(())
}

//! One session alone, whose document's requests are answered one after the other.
ghost use Rattle.std.specs.Prelude.{◌≡◌, ℕ, slice_get, Some, IfOk};
ghost use Rattle.ipa_logic.specs.Requests.{IsRequest};
ghost use Rattle.ipa_logic.specs.declared.facts.Request.{Request as TheRequest};
ghost use Rattle.ipa_history.specs.Clocks.{IsClockOf};
ghost use Rattle.ipa_session.specs.Sessions.{IsLawfulNext};

use crate::documents::{ENROLMENT, RACE, document_of, setting_for};
use ipa_gate::Setting;
use ipa_history::{Reason, Tx};
use ipa_logic::{Request, State};
use ipa_reader::kept_by_type;
use ipa_session::{Decision, Session};
use ipa_spec::List;
use std::alloc::{AllocGlobal, Global};
use std::test::Fail;
use std::thread::Threads;

/// An answer: its kind, its number, and the first elements that it names.
type Told = (&'static str, usize, [u16; 2]);

/// What a refusal says.
fn refusal(reason: &Reason) -> Told {
    match reason {
        Reason::NotWithin(bound) => ("not within", *bound as usize, [0, 0]),
        Reason::Need(need) => ("need", *need as usize, [0, 0]),
        Reason::Clause(broken) => (
            "clause",
            broken.clause as usize,
            [broken.values[0], broken.values[1]],
        ),
        Reason::Over(bound) => ("over", *bound as usize, [0, 0]),
        Reason::NotTheDrop => ("not the drop", 0, [0, 0]),
    }
}

/// How many facts are shown, and which elements the first one has.
fn showing(alloc: Global, shown: &State) -> Result<Told, Fail> {
    let facts = shown.to_vec(alloc)?;
    let first = match facts.first() {
        Some(fact) => [fact.args[0], fact.args[1]],
        None => [0, 0],
    };
    Ok(("shown", facts.len(), first))
}

/// The session keeps its next transaction.
fn commit(session: &mut Session, tx: Tx) -> Result<Told, Fail>
    requires clock { IsClockOf session.old.seen tx.cut }
    requires lawful { IsLawfulNext session.old tx.cut tx }
    ensures { session.new.setting ≡ session.old.setting }
{
    if session.seen().len() > 100 {
        return Err(Fail::from("the session has seen few transactions"));
    }
    let told = ("commit", tx.dot.number as usize, [tx.args[0], tx.args[1]]);
    session.keep(tx)?;
    Ok(told)
}

/// What the session is answered. No drop is due.
fn answer(alloc: Global, session: &mut Session, request: &Request) -> Result<Told, Fail>
    requires { IsRequest session.old.setting.spec session.old.setting.universe request.now }
    ensures { session.new.setting ≡ session.old.setting }
{
    let _cut = session.cut();
    if let Some(_) = session.next_drop() {
        return Err(Fail::from("no drop is due"));
    }
    match session.decide(request)? {
        Decision::Commit(tx) => commit(session, tx),
        Decision::Refused(reason) => Ok(refusal(&reason)),
        Decision::Shown(shown) => showing(alloc, &shown),
    }
}

/// Whether these are the answers to the requests.
fn is_told(
    alloc: Global,
    session: &mut Session,
    requests: &List<Request>,
    rows: &[Told],
) -> Result<bool, Fail>
    requires { (place : ℕ) (request : TheRequest) → slice_get requests.now place ≡ Some request →
        IsRequest session.old.setting.spec session.old.setting.universe request }
{
    for place in 0..rows.len() {
        let Some(request) = requests.get(place) else {
            return Ok(false);
        };
        if answer(alloc, session, request)? != rows[place] {
            return Ok(false);
        }
    }
    Ok(requests.len() == rows.len())
}

/// The session of the only origin of the setting.
pub fn session_of(alloc: Global, setting: Setting) -> Result<Session, Fail>
    ensures { IfOk result (λ session. session.setting ≡ setting) }
{
    if setting.sessions() == 0 {
        return Err(Fail::from("the setting has a session"));
    }
    Ok(Session::new(alloc, setting, 0)?)
}

/// Whether these are the answers to the requests of the first session of the document with this text.
fn has_answers<R: AllocGlobal + Threads + Sync>(
    rt: &R,
    text: &str,
    rows: &[Told],
) -> Result<bool, Fail> {
    let alloc = rt.alloc();
    let document = document_of(alloc, text)?;
    let mut session = session_of(alloc, setting_for(rt, &document)?)?;
    kept_by_type();
    let Some(work) = document.setup.sessions.get(0) else {
        return Ok(false);
    };
    is_told(alloc, &mut session, &work.requests, rows)
}

#[test]
fn refuses_who_is_over_the_cap(rt: HostRuntime) -> Result<(), Fail> {
    assert!(rt;
        has_answers(
            &rt,
            RACE,
            &[
                ("commit", 1, [0, 0]),
                ("over", 0, [0, 0]),
                ("shown", 1, [0, 0]),
            ]
        )?
    );
    Ok(())
}

#[test]
fn refuses_failed_needs_and_broken_clauses(rt: HostRuntime) -> Result<(), Fail> {
    assert!(rt;
        has_answers(
            &rt,
            ENROLMENT,
            &[
                ("need", 0, [0, 0]),
                ("commit", 1, [0, 0]),
                ("commit", 2, [0, 0]),
                ("clause", 0, [0, 0]),
                ("shown", 1, [0, 0]),
            ]
        )?
    );
    Ok(())
}

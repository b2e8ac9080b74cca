//! Whether an outcome's line is the next one, and past the session's line before.
ghost use Rattle.std.specs.Prelude.{◌≡◌, ◌↔◌, ℕ, ◌<◌, ◌≤◌, IsTrue, MatchOption, MatchBool, length, slice_get, slice_index};
ghost use Rattle.ipa_clock.specs.Cut.{Covers};
ghost use Rattle.ipa_history.specs.LawfulEnds.{IsAt, IsPast};
ghost use Rattle.ipa_audit.specs.Journals.{requests_of, outcome_of};
ghost use Rattle.ipa_audit.specs.Order.{IsDueIn, IsNextBy};
ghost use Rattle.ipa_audit.specs.Steps.{IsDueAt, IsNonePlace, IsPastIn, IsBehindIn, IsPastAt, IsBehindAt, CoversCommit};

use ipa_clock::{Cut, Dot};
use ipa_history::Answer;
use ipa_journal::OutLine;
use ipa_logic::Request;
use ipa_reader::SessionWork;

// Whether the line is the next one behind so many lines of each session.
pub(crate) fn is_next(sessions: &[SessionWork], counts: &[usize; 16], out: &OutLine) -> bool
    requires { length sessions.now ≤ 16 }
    ensures { IsTrue result ↔ IsNextBy (requests_of sessions.now) (slice_index counts.now) out.now }
{
    is_session(sessions, out.session) && are_due(sessions, counts, out)
}

// Whether there is such a session.
fn is_session(sessions: &[SessionWork], session: u8) -> bool
    ensures { IsTrue result ↔ (session < length sessions.now) }
{
    usize::from(session) < sessions.len()
}

// Whether the numbers of lines are as they have to be before the line.
fn are_due(sessions: &[SessionWork], counts: &[usize; 16], out: &OutLine) -> bool
    requires { length sessions.now ≤ 16 }
    ensures { IsTrue result ↔ ((i : ℕ) → i < length sessions.now → IsDueAt sessions.now counts.now out.now i) }
{
    for session in 0..sessions.len() {
        if !is_due_at(out, session, counts[session], &sessions[session]) {
            return false;
        }
    }
    true
}

// Whether so many lines of a session are to stand before the line.
fn is_due_at(out: &OutLine, session: usize, count: usize, work: &SessionWork) -> bool
    ensures { IsTrue result ↔ IsDueIn out.now session count (length work.now.requests) }
{
    is_due(out, session, count, work.requests.len())
}

// Whether so many lines of a session, with so many requests, are to stand before the line.
fn is_due(out: &OutLine, session: usize, count: usize, asked: usize) -> bool
    ensures { IsTrue result ↔ IsDueIn out.now session count asked }
{
    let own = usize::from(out.session);
    if session < own {
        count == asked
    } else if session == own {
        count == out.place as usize
    } else {
        count == 0
    }
}

// The session's request in this place, or `None` where it is not there.
pub(crate) fn request_at(sessions: &[SessionWork], session: u8, place: u32) -> Option<&Request>
    ensures { MatchOption result (IsNonePlace (requests_of sessions.now) session place)
        (λ request. IsAt (requests_of sessions.now) session place request.now) }
{
    match sessions.get(usize::from(session)) {
        Some(work) => work.requests.get(place as usize),
        None => None,
    }
}

// Whether the line in this place is past the one before, where that is of the same session.
pub(crate) fn is_past_last(outs: &[OutLine], place: usize) -> bool
    requires { place < length outs.now }
    ensures { MatchBool result (IsPastAt outs.now place) (IsBehindAt outs.now place) }
{
    if place == 0 {
        return true;
    }
    is_past(&outs[place - 1], &outs[place])
}

// Whether the line is past an earlier one, if that is of the same session.
fn is_past(earlier: &OutLine, later: &OutLine) -> bool
    ensures { MatchBool result (IsPastIn earlier.now later.now) (IsBehindIn earlier.now later.now) }
{
    earlier.session != later.session || covers(earlier, later)
}

// Whether the later line's cut covers the cut and the commit of the earlier one.
fn covers(earlier: &OutLine, later: &OutLine) -> bool
    ensures { IsTrue result ↔ IsPast later.now.session (outcome_of earlier.now) (outcome_of later.now) }
{
    earlier.cut.is_below(&later.cut) && covers_commit(&later.cut, later.session, &earlier.answer)
}

// Whether the cut covers the commit that the session was answered, if it is one.
fn covers_commit(cut: &Cut, session: u8, answer: &Answer) -> bool
    ensures { IsTrue result ↔ CoversCommit cut.now session answer.now }
{
    match answer {
        Answer::Commit(number) => cut.covers(Dot {
            origin: session,
            number: *number,
        }),
        _ => true,
    }
}

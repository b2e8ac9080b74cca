//! The outcomes of a journal, line by line.
ghost use Rattle.std.specs.Prelude.{◌≡◌, ◌+◌, ◌<◌, ◌≤◌, IfOk, MatchOption, MatchBool, length, take, slice_set};
ghost use Rattle.ipa_logic.specs.Requests.{IsRequest};
ghost use Rattle.ipa_history.specs.Histories.{IsClosed};
ghost use Rattle.ipa_sets.specs.Indexes.{IsIndexOf};
ghost use Rattle.ipa_gate.specs.Logs.{IsLog};
ghost use Rattle.ipa_audit.specs.Journals.{requests_of};
ghost use Rattle.ipa_audit.specs.BadLines.{IsFirstBadOut};
ghost use Rattle.ipa_audit.specs.GoodLines.{IsAnswered, IsFalse, AreGood};
ghost use Rattle.ipa_audit.specs.Steps.{AreAsked, AreCounted, AreGoodUpTo, IsGoodAt, IsBadAt};

use crate::answers::is_answered;
use crate::cuts::is_closed;
use crate::order::{is_next, is_past_last, request_at};
use ipa_gate::Setting;
use ipa_journal::OutLine;
use ipa_logic::Request;
use ipa_reader::SessionWork;
use ipa_sets::Index;
use ipa_spec::laws::spec_is_fit;
use std::alloc::{AllocError, Global};

// The number of the first bad line, or `None` where all are good. The index has the entries of a log.
pub(crate) fn first_bad(
    alloc: Global,
    setting: &Setting,
    sessions: &[SessionWork],
    index: &Index,
    outs: &[OutLine],
) -> Result<Option<u32>, AllocError>
    requires log { IsLog setting.now index.now.entries }
    requires indexed { IsIndexOf setting.now.spec index.now }
    requires few { length sessions.now ≤ 16 }
    requires asked { AreAsked setting.now sessions.now }
    ensures { IfOk result (λ bad. MatchOption bad
        (AreGood setting.now (requests_of sessions.now) index.now.entries outs.now)
        (IsFirstBadOut setting.now (requests_of sessions.now) index.now.entries outs.now)) }
{
    let mut counts = [0usize; 16];
    for place in 0..outs.len() {
        if !is_good(alloc, setting, sessions, index, &counts, outs, place)? {
            return Ok(Some(outs[place].line));
        }
        count(&mut counts, &outs[place]);
    }
    Ok(None)
}

// Whether the line in this place is good. Those before are.
fn is_good(
    alloc: Global,
    setting: &Setting,
    sessions: &[SessionWork],
    index: &Index,
    counts: &[usize; 16],
    outs: &[OutLine],
    place: usize,
) -> Result<bool, AllocError>
    requires log { IsLog setting.now index.now.entries }
    requires indexed { IsIndexOf setting.now.spec index.now }
    requires few { length sessions.now ≤ 16 }
    requires asked { AreAsked setting.now sessions.now }
    requires place { place < length outs.now }
    requires counted { AreCounted (take place outs.now) counts.now }
    requires before { AreGoodUpTo setting.now (requests_of sessions.now) index.now.entries outs.now place }
    ensures { IfOk result (λ good. MatchBool good
        (IsGoodAt setting.now (requests_of sessions.now) index.now.entries outs.now place)
        (IsBadAt setting.now (requests_of sessions.now) index.now.entries outs.now place)) }
{
    let out = &outs[place];
    if !is_next(sessions, counts, out) {
        return Ok(false);
    }
    if !is_past_last(outs, place) {
        return Ok(false);
    }
    let Some(request) = request_at(sessions, out.session, out.place) else {
        return Ok(false);
    };
    if !is_closed(setting.accepted().spec(), index, &out.cut) {
        return Ok(false);
    }
    let good = is_true(alloc, setting, index, request, out)?;
    Ok(good)
}

// Whether the line tells what the request is answered. Its cut is closed.
fn is_true(
    alloc: Global,
    setting: &Setting,
    index: &Index,
    request: &Request,
    out: &OutLine,
) -> Result<bool, AllocError>
    requires log { IsLog setting.now index.now.entries }
    requires indexed { IsIndexOf setting.now.spec index.now }
    requires closed { IsClosed index.now.entries out.now.cut }
    requires origin { out.now.session < 16 }
    requires request { IsRequest setting.now.spec setting.now.universe request.now }
    ensures { IfOk result (λ good. MatchBool good
        (IsAnswered setting.now.spec setting.now.universe setting.now.base index.now.entries request.now out.now)
        (IsFalse setting.now.spec setting.now.universe setting.now.base index.now.entries request.now out.now)) }
{
    is_answered(
        alloc,
        setting.accepted().spec(),
        setting.universe(),
        setting.base(),
        index,
        request,
        out,
    )
}

// Counts the line, which is the next of its session.
fn count(counts: &mut [usize; 16], out: &OutLine)
    requires { out.now.session < 16 }
    ensures { counts.new ≡ slice_set counts.old out.now.session (out.now.place + 1) }
{
    counts[usize::from(out.session)] = out.place as usize + 1;
}

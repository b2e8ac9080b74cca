//! Whether a journal has an outcome for each request, and a commit for each operation's entry.
ghost use Rattle.std.specs.Prelude.{◌≡◌, ◌↔◌, ◌≤◌, ◌||◌, IsTrue, IfOk, OnOk, MatchBool, length};
ghost use Rattle.std.specs.List.{list_any};
ghost use Rattle.ipa_audit.specs.Journals.{requests_of, lines_of};
ghost use Rattle.ipa_audit.specs.GoodLines.{AreAllAnswered, HasFewer, IsComplete, IsIncomplete};
ghost use Rattle.ipa_audit.specs.Commits.{is_listed, is_commit_of, is_named};
ghost use Rattle.ipa_audit.specs.Commits.{AreNamed, HasUnlisted};
ghost use Rattle.ipa_audit.specs.declared.missing.Commit.{Commit as TheCommit};

use ipa_history::{Answer, Tx};
use ipa_journal::OutLine;
use ipa_reader::SessionWork;
use ipa_spec::Action;
use std::alloc::{AllocError, Global};
use std::collections::BTreeSet;

/// A commit of a session.
#[derive(Clone, Copy, PartialEq, Eq, PartialOrd, Ord)]
pub(crate) struct Commit {
    pub(crate) session: u8,
    pub(crate) number: u32,
}

// Whether each session has as many lines as requests, and each operation's entry a commit.
pub(crate) fn is_complete(
    alloc: Global,
    sessions: &[SessionWork],
    entries: &[Tx],
    outs: &[OutLine],
) -> Result<bool, AllocError>
    ensures { IfOk result (λ complete. MatchBool complete
        (IsComplete (requests_of sessions.now) entries.now outs.now)
        (IsIncomplete (requests_of sessions.now) entries.now outs.now)) }
{
    if !are_all_answered(sessions, outs) {
        return Ok(false);
    }
    let commits = commits_of(alloc, outs)?;
    Ok(are_named(entries, &commits))
}

// Whether each session has as many lines as requests.
fn are_all_answered(sessions: &[SessionWork], outs: &[OutLine]) -> bool
    ensures { MatchBool result (AreAllAnswered (requests_of sessions.now) outs.now)
        (HasFewer (requests_of sessions.now) outs.now) }
{
    for session in 0..sessions.len() {
        if !has_all(outs, session, &sessions[session]) {
            return false;
        }
    }
    true
}

// Whether the session has as many lines as requests.
fn has_all(outs: &[OutLine], session: usize, work: &SessionWork) -> bool
    ensures { IsTrue result ↔ (length work.now.requests ≤ length (lines_of session outs.now)) }
{
    work.requests.len() <= line_count(outs, session)
}

// The number of the session's lines.
fn line_count(outs: &[OutLine], session: usize) -> usize
    ensures { result ≡ length (lines_of session outs.now) }
{
    outs.iter()
        .filter(|out| usize::from(out.session) == session)
        .count()
}

// The commits of the lines.
fn commits_of(alloc: Global, outs: &[OutLine]) -> Result<BTreeSet<Commit>, AllocError>
    ensures { IfOk result (λ commits. (c : TheCommit) →
        is_listed commits.keys c ≡ list_any (λ o. is_commit_of o c) outs.now) }
{
    let mut commits = BTreeSet::new(alloc);
    for out in outs {
        insert_commit(&mut commits, out)?;
    }
    Ok(commits)
}

// Inserts the commit of the line, if it is one.
fn insert_commit(commits: &mut BTreeSet<Commit>, out: &OutLine) -> Result<(), AllocError>
    ensures { OnOk result ((c : TheCommit) →
        is_listed commits.new.keys c ≡ (is_commit_of out.now c || is_listed commits.old.keys c)) }
{
    match out.answer {
        Answer::Commit(number) => {
            let _ = commits.insert(Commit {
                session: out.session,
                number,
            })?;
            Ok(())
        }
        _ => Ok(()),
    }
}

// Whether the commit of each operation's entry is among these.
fn are_named(entries: &[Tx], commits: &BTreeSet<Commit>) -> bool
    ensures { MatchBool result (AreNamed entries.now commits.now.keys) (HasUnlisted entries.now commits.now.keys) }
{
    for tx in entries {
        if !is_named(tx, commits) {
            return false;
        }
    }
    true
}

// Whether its commit is, where it is an operation's.
fn is_named(tx: &Tx, commits: &BTreeSet<Commit>) -> bool
    ensures { result ≡ is_named commits.now.keys tx.now }
{
    match tx.action {
        Action::Op(_) => commits.contains(&Commit {
            session: tx.dot.origin,
            number: tx.dot.number,
        }),
        Action::Drop(_) => true,
    }
}

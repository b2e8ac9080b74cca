//! What `audit` and `migrate` answer to journals.
use crate::tables::{cups, damaged, legal, race, three};
use ipa_base::{MemorySink, MemorySource};
use ipa_command::Status;
use ipa_journal_commands::{audit_command, migrate_command};
use ipa_text::Page;
use std::alloc::{AllocError, Global};
use std::test::Fail;
use std::thread::Threads;

/// What `audit` answers to these bytes.
fn audited<R: Threads + Sync>(
    rt: &R,
    alloc: Global,
    bytes: &[u8],
) -> Result<(Status, Vec<u8>), AllocError> {
    let mut source = MemorySource::new(bytes.to_vec(alloc)?, 4096, Vec::new(alloc));
    let mut sink = MemorySink::new(alloc, 4096, Vec::new(alloc));
    let status = audit_command(rt, alloc, &mut source, &mut sink);
    Ok((status, sink.bytes().to_vec(alloc)?))
}

/// What `migrate` answers to these bytes.
fn migrated(alloc: Global, bytes: &[u8]) -> Result<(Status, Vec<u8>), AllocError> {
    let mut source = MemorySource::new(bytes.to_vec(alloc)?, 4096, Vec::new(alloc));
    let mut sink = MemorySink::new(alloc, 4096, Vec::new(alloc));
    let status = migrate_command(alloc, &mut source, &mut sink);
    Ok((status, sink.bytes().to_vec(alloc)?))
}

/// A head and a tail as one input.
fn joined(alloc: Global, head: &str, tail: &str) -> Result<Page, AllocError> {
    let mut page = Page::new(alloc);
    page.text(head)?;
    page.text(tail)?;
    Ok(page)
}

/// Prints a line with its end, if it has any text.
fn write_line(page: &mut Page, line: &str) -> Result<(), AllocError> {
    if line.is_empty() {
        return Ok(());
    }
    page.text(line)?;
    page.text("\n")
}

/// The text with one line in place of another, or without it.
fn changed(alloc: Global, text: &str, line: &str, other: &str) -> Result<Page, AllocError> {
    let mut page = Page::new(alloc);
    for piece in text.split('\n') {
        write_line(&mut page, if piece == line { other } else { piece })?;
    }
    Ok(page)
}

/// Whether the audit of a journal behind the head of two players in one place prints this, which is all legal.
fn is_legal<R: Threads + Sync>(
    rt: &R,
    alloc: Global,
    journal: &str,
    wanted: &str,
) -> Result<bool, Fail> {
    let input = joined(alloc, cups(), journal)?;
    let (status, text) = audited(rt, alloc, input.bytes())?;
    Ok(status == Status::Done && text.as_slice() == wanted.as_bytes())
}

/// Whether the audit of the race with a changed line prints this.
fn is_damaged<R: Threads + Sync>(
    rt: &R,
    alloc: Global,
    change: &str,
    wanted: &str,
) -> Result<bool, Fail> {
    let (Some((line, other)), Some((journal, _))) = (change.split_once('>'), race().split_once('|'))
    else {
        return Ok(false);
    };
    let input = joined(alloc, cups(), journal)?;
    let Ok(input) = std::str::from_utf8(input.bytes()) else {
        return Ok(false);
    };
    let damaged = changed(alloc, input, line, other)?;
    let (_, text) = audited(rt, alloc, damaged.bytes())?;
    Ok(text.as_slice() == wanted.as_bytes())
}

#[test]
fn audits_what_runs_leave(rt: HostRuntime) -> Result<(), Fail> {
    let alloc = rt.alloc();
    let (Some((first, second)), Some((of_three, _))) = (
        race().split_once('|'),
        three().split_once('|'),
    ) else {
        return Err("a row has no `|`".into());
    };
    assert!(rt; is_legal(&rt, alloc, first, "legal: 4 transactions\n")?);
    assert!(rt; is_legal(&rt, alloc, of_three, "legal: 5 transactions\n")?);
    assert!(rt; is_legal(&rt, alloc, legal(), "legal: 5 transactions\n")?);
    let input = joined(alloc, cups(), first)?;
    let (status, text) = migrated(alloc, input.bytes())?;
    assert_eq!(rt; status, Status::Done);
    assert!(rt; text.as_slice() == second.as_bytes());
    Ok(())
}

#[test]
fn audits_a_journal_with_a_changed_line(rt: HostRuntime) -> Result<(), Fail> {
    for row in damaged().split('|') {
        let Some((change, wanted)) = row.split_once('=') else {
            return Err("a row has no `=`".into());
        };
        assert!(rt; is_damaged(&rt, rt.alloc(), change, wanted)?, "{row}");
    }
    Ok(())
}

#[test]
fn a_failing_source_or_sink_is_a_fault(rt: HostRuntime) -> Result<(), Fail> {
    let alloc = rt.alloc();
    let mut source = MemorySource::new(Vec::new(alloc), 4096, [1].to_vec(alloc)?);
    let mut sink = MemorySink::new(alloc, 4096, Vec::new(alloc));
    let status = audit_command(&rt, alloc, &mut source, &mut sink);
    assert_eq!(rt; status, Status::ReadFault);
    assert_eq!(rt; sink.bytes(), b"".as_slice());
    let mut source = MemorySource::new(Vec::new(alloc), 4096, Vec::new(alloc));
    let mut sink = MemorySink::new(alloc, 7, [2].to_vec(alloc)?);
    let status = migrate_command(alloc, &mut source, &mut sink);
    assert_eq!(rt; status, Status::WriteFault);
    assert_eq!(rt; sink.bytes(), b"refused".as_slice());
    Ok(())
}

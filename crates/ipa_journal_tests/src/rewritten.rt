//! Journals that are read and written again.
use crate::tables::{cups, known, race, refused, three};
use ipa_journal::{JournalFault, journal_start, read_journal, write_content};
use ipa_reader::read_document;
use ipa_samples::Sample;
use ipa_text::Page;
use std::alloc::Global;
use std::test::Fail;

/// The journal of an input in version 2, or the number of the line that refuses it.
fn rewritten(alloc: Global, bytes: &[u8]) -> Result<Page, Fail> {
    if bytes.len() > 1000000 {
        return Err("the input is long".into());
    }
    let start = journal_start(alloc, bytes)?;
    let at = start.at as usize;
    if at > bytes.len() || start.line > 1000000 {
        return Err("the journal starts outside of the input".into());
    }
    let Ok(document) = read_document(alloc, &bytes[..at]) else {
        return Err("the document is refused".into());
    };
    let mut page = Page::new(alloc);
    match read_journal(
        alloc,
        &document.spec,
        &document.setup,
        &bytes[at..],
        start.line,
    ) {
        Ok(journal) => {
            let text = write_content(alloc, &document.spec, &document.setup, &journal)?;
            let Ok(text) = std::str::from_utf8(&text) else {
                return Err("the journal is no text".into());
            };
            page.text(text)?;
        }
        Err(JournalFault::At { line }) => page.number(u64::from(line))?,
        Err(JournalFault::NoMemory) => return Err("no memory".into()),
    }
    Ok(page)
}

/// Whether what stands behind a head is rewritten so.
fn is_rewritten(alloc: Global, head: &str, tail: &str, wanted: &str) -> Result<bool, Fail> {
    let mut input = Page::new(alloc);
    input.text(head)?;
    input.text(tail)?;
    let page = rewritten(alloc, input.bytes())?;
    Ok(page.bytes() == wanted.as_bytes())
}

/// Whether the two texts of a row, behind a head, are an input and what is written of it.
fn is_row(alloc: Global, head: &str, row: &str, between: char) -> Result<bool, Fail> {
    let Some((tail, wanted)) = row.split_once(between) else {
        return Ok(false);
    };
    is_rewritten(alloc, head, tail, wanted)
}

#[test]
fn writes_what_is_read(rt: HostRuntime) -> Result<(), Fail> {
    assert!(rt; is_row(rt.alloc(), cups(), race(), '|')?);
    assert!(rt; is_row(rt.alloc(), cups(), three(), '|')?);
    assert!(rt; is_row(rt.alloc(), Sample::EnrolmentMended.text(), known(), '|')?);
    Ok(())
}

#[test]
fn refuses_each_line_at_its_number(rt: HostRuntime) -> Result<(), Fail> {
    for row in refused().split('|') {
        assert!(rt; is_row(rt.alloc(), cups(), row, '>')?, "{row}");
    }
    Ok(())
}

//! Documents that are read, and those that are refused, each at its line.
use crate::tables::{bases, head, limits, read, refused};
use ipa_reader::{DocFault, read_document};
use ipa_report::refusal;
use ipa_text::Page;
use std::alloc::Global;
use std::test::Fail;

/// The line that refuses a document, or nothing where it is read.
fn refusal_of(alloc: Global, bytes: &[u8]) -> Result<Vec<u8>, Fail> {
    if bytes.len() > 1000000 {
        return Err("the document is long".into());
    }
    match read_document(alloc, bytes) {
        Ok(_) => Ok(Vec::new(alloc)),
        Err(DocFault::At { line, kind }) => Ok(refusal(alloc, line, &kind)?),
        Err(DocFault::NoMemory) => Err("no memory".into()),
    }
}

/// Whether the document of this page is refused so.
fn is_refused(alloc: Global, page: &Page, wanted: &str) -> Result<bool, Fail> {
    let answered = refusal_of(alloc, page.bytes())?;
    let mut line = Page::new(alloc);
    line.text("refused:")?;
    line.text(wanted)?;
    Ok(answered.as_slice() == line.bytes())
}

/// Whether a row of the table of refused documents is true.
fn is_true(alloc: Global, row: &str) -> Result<bool, Fail> {
    let Some((tail, wanted)) = row.split_once('>') else {
        return Ok(false);
    };
    let mut page = Page::new(alloc);
    page.text(head())?;
    page.text(tail)?;
    is_refused(alloc, &page, wanted)
}

#[test]
fn refuses_each_kind_at_its_line(rt: HostRuntime) -> Result<(), Fail> {
    let mut rows = 0u32;
    for row in refused().split('|').skip(1) {
        assert!(rt; is_true(rt.alloc(), row)?, "{row}");
        rows = rows.wrapping_add(1);
    }
    assert_eq!(rt; rows, 68);
    Ok(())
}

#[test]
fn reads_lines_of_all_shapes(rt: HostRuntime) -> Result<(), Fail> {
    for document in read().split('|') {
        let answered = refusal_of(rt.alloc(), document.as_bytes())?;
        assert!(rt; answered.is_empty(), "{document}");
    }
    Ok(())
}

/// Prints a line as it is.
fn write_line(page: &mut Page, line: &str) -> Result<(), Fail> {
    page.text(line)?;
    page.text("\n")?;
    Ok(())
}

/// Prints a line so often, with its number in place of `#`.
fn write_repeated(page: &mut Page, line: &str, count: u32) -> Result<(), Fail> {
    for number in 0..count {
        match line.split_once('#') {
            Some((before, after)) => {
                page.text(before)?;
                page.number(u64::from(number))?;
                page.text(after)?;
            }
            None => page.text(line)?,
        }
        page.text("\n")?;
    }
    Ok(())
}

/// The document of a text, in which the line behind a star stands so often.
fn repeating(alloc: Global, text: &str, count: u32) -> Result<Page, Fail> {
    let mut page = Page::new(alloc);
    for line in text.split('\n') {
        match line.strip_prefix('*') {
            Some(repeated) => write_repeated(&mut page, repeated, count)?,
            None => write_line(&mut page, line)?,
        }
    }
    Ok(page)
}

#[test]
fn reads_up_to_each_limit(rt: HostRuntime) -> Result<(), Fail> {
    for (text, most, wanted) in limits() {
        let kept = repeating(rt.alloc(), text, most)?;
        assert!(rt; refusal_of(rt.alloc(), kept.bytes())?.is_empty(), "{text}");
        let passed = repeating(rt.alloc(), text, most.saturating_add(1))?;
        assert!(rt; is_refused(rt.alloc(), &passed, wanted)?, "{text}");
    }
    Ok(())
}

#[test]
fn judges_the_base_at_the_last_line(rt: HostRuntime) -> Result<(), Fail> {
    for (text, count, wanted) in bases() {
        let page = repeating(rt.alloc(), text, count)?;
        assert!(rt; is_refused(rt.alloc(), &page, wanted)?, "{wanted}");
    }
    Ok(())
}

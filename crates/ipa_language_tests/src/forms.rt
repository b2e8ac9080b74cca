//! The forms of lines, and the canonical line of each.
use ipa_forms::{is_existential, read_form, write_form};
use ipa_text::{Page, cut_line};
use std::alloc::Global;
use std::test::Fail;

/// A line of each form, and behind it its canonical line. Before each stands a bar.
fn formed() -> &'static str {
    "|sort  player>sort player
|const root :user>const root: user
|pred enrolled ( player , cup )addwins>pred enrolled(player,cup) addwins
|pred over() remwins>pred over() remwins
|clause c1(p:player,t : cup):not r(p,t)or q(p)>clause c1(p:player,t:cup): not r(p,t) or q(p)
|clause c(): p=q or p!=q or r()>clause c(): p = q or p != q or r()
|op sort(addwins:need)>op sort(addwins:need)
|need\tnot active(t)>need not active(t)
|need p!=q>need p != q
|add enrolled(p,*)>add enrolled(p,*)
|del inmatch( * , p , t )>del inmatch(*,p,t)
|bound cap enrolled(p,t)counts p most 3>bound cap enrolled(p,t) counts p most 3
|bound b r(x) counts x most 1  youngest>bound b r(x) counts x most 1 youngest
|drops inmatch(p,*,t)>drops inmatch(p,*,t)
|elem cup k1  k2 most>elem cup k1 k2 most
|base enrolled(ann,open)>base enrolled(ann,open)
|replicas 3>replicas 3
|session 4294967295>session 4294967295
|do match(ann,bob,open)>do match(ann,bob,open)
|show enrolled(*,open)>show enrolled(*,open)
|show over()>show over()
"
}

/// Lines without a form, of which the first has nothing.
fn broken() -> &'static str {
    "
sorts a
sort
sort a b
sort not
sort 3
pred p(a,) addwins
pred p(a)
pred p(a) addwins remwins
pred p(a b) addwins
clause c(x:s):
clause c(x:s) r(x)
clause c(x): r(x)
clause c(x:s): r(x) or
clause c(x:s): not not r(x)
op f(x)
op f(x:s
need p(x) or q(x)
need or(x)
add r(x,)
del r x
bound b r(*) counts x most 3
bound b r(x) counts x most many
bound b r(x) counts x most 3 greatest
const c: s t
drops r
elem s
elem s a,b
base r(*)
replicas three
session 1 2
do f(*)
show r(x)y
(sort a)"
}

/// The canonical text of a line, or nothing where it has no form.
fn canonical(alloc: Global, line: &[u8]) -> Result<Page, Fail> {
    let mut page = Page::new(alloc);
    if line.len() > 100 {
        return Ok(page);
    }
    let tokens = cut_line(alloc, line)?;
    if let Some(form) = read_form(alloc, line, tokens.as_slice())? {
        write_form(&mut page, &form)?;
    }
    Ok(page)
}

/// Whether a row of the table of forms is true.
fn is_true(alloc: Global, row: &str) -> Result<bool, Fail> {
    let Some((line, wanted)) = row.split_once('>') else {
        return Ok(false);
    };
    let page = canonical(alloc, line.as_bytes())?;
    Ok(page.bytes() == wanted.as_bytes())
}

#[test]
fn reads_and_prints_each_form(rt: HostRuntime) -> Result<(), Fail> {
    let mut rows = 0u32;
    for row in formed().split('|').skip(1) {
        assert!(rt; is_true(rt.alloc(), row)?, "{row}");
        rows = rows.wrapping_add(1);
    }
    assert_eq!(rt; rows, 21);
    Ok(())
}

#[test]
fn broken_lines_have_no_form(rt: HostRuntime) -> Result<(), Fail> {
    for line in broken().split('\n') {
        let page = canonical(rt.alloc(), line.as_bytes())?;
        assert!(rt; page.bytes().is_empty(), "{line}");
    }
    Ok(())
}

/// Whether a line is a clause with `exists`.
fn existential(alloc: Global, line: &[u8]) -> Result<bool, Fail> {
    if line.len() > 100 {
        return Ok(false);
    }
    let tokens = cut_line(alloc, line)?;
    Ok(is_existential(line, tokens.as_slice()))
}

#[test]
fn sees_existential_clauses(rt: HostRuntime) -> Result<(), Fail> {
    for (line, wanted) in [
        ("clause c(x:s): exists y", true),
        ("clause ( exists", true),
        ("clause c(x:s): r(x)", false),
        ("op clause exists", false),
        ("exists clause", false),
        ("", false),
    ] {
        assert_eq!(rt; existential(rt.alloc(), line.as_bytes())?, wanted);
    }
    Ok(())
}

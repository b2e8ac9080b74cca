//! What no clause says: that commands answer with ample memory, and what they print, worked out by hand.
ghost use Rattle.std.specs.Prelude.{◌<◌};

use crate::{Status, check_command, ipa_main};
use ipa_base::{MemorySink, MemorySource, ReaderSource, WriterSink, read_all, write_all};
use ipa_weather::{Split, Weather};
use std::alloc::{AllocError, Global};
use std::test::Fail;
use std::thread::Threads;

/// Two nodes may not both be leader.
const LEADERS: &str = "\
sort node
pred leader(node) addwins
clause one(p:node,q:node): not leader(p) or not leader(q) or p = q
op elect(p:node)
add leader(p)
";

const LEADERS_REPORT: &str = "\
conflict elect(node#1) elect(node#2) breaks one(node#1,node#2)
  after left: leader(node#1)
  after right: leader(node#2)
  lost: not leader(node#2)
  hidden: none
conflicts 1, unsafe drops 0
";

/// Two operations of which each adds what excludes the other's fact.
const EXCLUSIVE: &str = "\
sort s1
const c1: s1
pred p1(s1) remwins
pred p2(s1) addwins
clause k1(sort:s1,v2:s1): not p1(sort) or not p2(v2) or v2 != sort
op o1(a1:s1)
need not p2(a1)
add p1(a1)
op o2(a1:s1)
need not p1(a1)
add p2(c1)
add p2(a1)
";

const EXCLUSIVE_STEPS: &str = "\
# pair o1 o2
# offer 1: o2 del p1(*)
# offer 2: o1 del p2(a1); flip p2
# offer 3: o1 del p2(*); flip p2
# offer 4: o2 del p1(a1); o2 del p1(c1)
# applied 1
# repaired 1
";

/// Two sessions at two replicas, of which each enrolls somebody and then looks; one may be enrolled.
const RACE: &str = "\
sort player
sort cup
pred enrolled(player,cup) addwins
op enroll(p:player,t:cup)
add enrolled(p,t)
bound cap enrolled(p,t) counts p most 1
elem player ann bob cid
elem cup open
replicas 2
session 1
do enroll(ann,open)
show enrolled(*,*)
session 2
do enroll(bob,open)
show enrolled(*,*)
";

const RACE_JOURNAL: &str = "\
journal 2
sessions 2
bounds greatest
tx 1 1 cut 0 0 do enroll(ann,open)
tx 2 1 cut 0 0 do enroll(bob,open)
tx 1 2 cut 1 1 drop cap(bob,open)
tx 2 2 cut 1 1 drop cap(bob,open)
out 1 1 cut 0 0 commit 1
out 1 2 cut 2 1 shown enrolled(ann,open)
out 2 1 cut 0 0 commit 1
out 2 2 cut 1 2 shown enrolled(ann,open)
final enrolled(ann,open)
end
";

/// The same race, where what each link carries first is held until the settling.
const SPLIT_JOURNAL: &str = "\
journal 2
sessions 2
bounds greatest
tx 1 1 cut 0 0 do enroll(ann,open)
tx 2 1 cut 0 0 do enroll(bob,open)
tx 1 2 cut 1 1 drop cap(bob,open)
out 1 1 cut 0 0 commit 1
out 1 2 cut 1 0 shown enrolled(ann,open)
out 2 1 cut 0 0 commit 1
out 2 2 cut 0 1 shown enrolled(bob,open)
final enrolled(ann,open)
end
";

/// A race where the youngest is dropped: bob's session comes first.
const YOUNGEST: &str = "\
sort player
sort cup
pred enrolled(player,cup) addwins
op enroll(p:player,t:cup)
add enrolled(p,t)
bound cap enrolled(p,t) counts p most 1 youngest
elem player ann bob cid
elem cup open
replicas 2
session 1
do enroll(bob,open)
show enrolled(*,*)
session 2
do enroll(ann,open)
show enrolled(*,*)
";

const YOUNGEST_JOURNAL: &str = "\
journal 2
sessions 2
bounds youngest
tx 1 1 cut 0 0 do enroll(bob,open)
tx 2 1 cut 0 0 do enroll(ann,open)
tx 1 2 cut 1 1 drop cap(ann,open)
tx 2 2 cut 1 1 drop cap(ann,open)
out 1 1 cut 0 0 commit 1
out 1 2 cut 2 1 shown enrolled(bob,open)
out 2 1 cut 0 0 commit 1
out 2 2 cut 1 2 shown enrolled(bob,open)
final enrolled(bob,open)
end
";

/// One session alone, which enrolls two.
const ALONE: &str = "\
sort player
sort cup
pred enrolled(player,cup) addwins
op enroll(p:player,t:cup)
add enrolled(p,t)
bound cap enrolled(p,t) counts p most 1
elem player ann bob cid
elem cup open
session 1
do enroll(ann,open)
do enroll(bob,open)
show enrolled(*,*)
";

const ALONE_JOURNAL: &str = "\
journal 2
sessions 1
bounds greatest
tx 1 1 cut 0 do enroll(ann,open)
out 1 1 cut 0 commit 1
out 1 2 cut 1 refused over cap
out 1 3 cut 1 shown enrolled(ann,open)
final enrolled(ann,open)
end
";

const NO_JOURNAL: &str = "\
journal 2
sessions 0
bounds none
final none
end
";

const USAGE_LINE: &str =
    "usage: ipa check | repair | simulate NUMBER [WEATHER] | simulate --generate NUMBER | audit | migrate | run [WEATHER]\n";

/// What `check` answers to some bytes that come in pieces of at most this size.
fn checked<R: Threads + Sync>(
    rt: &R,
    alloc: Global,
    document: &[u8],
    piece: u32,
) -> Result<(Status, Vec<u8>), AllocError>
    requires { 0 < piece }
{
    let mut source = MemorySource::new(document.to_vec(alloc)?, piece, Vec::new(alloc));
    let mut sink = MemorySink::new(alloc, piece, Vec::new(alloc));
    let status = check_command(rt, alloc, &mut source, &mut sink);
    Ok((status, sink.bytes().to_vec(alloc)?))
}

#[test]
fn pieces_of_any_size_give_the_same_answer(rt: HostRuntime) -> Result<(), Fail> {
    for piece in [1, 7, 4096] {
        for (document, wanted, text) in [
            ("", Status::Done, "accepted\n"),
            (LEADERS, Status::Rejected, LEADERS_REPORT),
            (
                "sort player\nsort cup;\n",
                Status::Refused,
                "refused: line 2: byte\n",
            ),
        ] {
            let (status, printed) = checked(&rt, rt.alloc(), document.as_bytes(), piece)?;
            assert_eq!(rt; status, wanted, "in pieces of {piece}");
            assert!(rt;
                printed.as_slice() == text.as_bytes(),
                "in pieces of {piece}"
            );
        }
    }
    Ok(())
}

#[test]
fn one_byte_more_than_the_limit_is_too_long(rt: HostRuntime) -> Result<(), Fail> {
    let alloc = rt.alloc();
    let longest = vec![in alloc; b'\n'; 4_194_304]?;
    let (status, text) = checked(&rt, alloc, &longest, 4096)?;
    assert_eq!(rt; text.as_slice(), b"accepted\n".as_slice());
    assert_eq!(rt; status, Status::Done);
    let longer = vec![in alloc; b'\n'; 4_194_305]?;
    let (status, text) = checked(&rt, alloc, &longer, 4096)?;
    assert_eq!(rt; text.as_slice(), b"refused: too long\n".as_slice());
    assert_eq!(rt; status, Status::Refused);
    Ok(())
}

#[test]
fn a_source_that_fails_at_its_first_call_is_a_read_fault(rt: HostRuntime) -> Result<(), Fail> {
    let alloc = rt.alloc();
    let mut source = MemorySource::new(Vec::new(alloc), 4096, [1].to_vec(alloc)?);
    let mut sink = MemorySink::new(alloc, 4096, Vec::new(alloc));
    let status = check_command(&rt, alloc, &mut source, &mut sink);
    assert_eq!(rt; status, Status::ReadFault);
    assert_eq!(rt; sink.bytes(), b"".as_slice());
    Ok(())
}

#[test]
fn a_sink_that_fails_at_its_second_call_has_the_first_piece(rt: HostRuntime) -> Result<(), Fail> {
    let alloc = rt.alloc();
    let mut source = MemorySource::new(Vec::new(alloc), 4096, Vec::new(alloc));
    let mut sink = MemorySink::new(alloc, 4, [2].to_vec(alloc)?);
    let status = check_command(&rt, alloc, &mut source, &mut sink);
    assert_eq!(rt; status, Status::WriteFault);
    assert_eq!(rt; sink.bytes(), b"acce".as_slice());
    Ok(())
}

/// What the program answers to these words, where standard input holds this document and each link holds so many frames
/// at first: the status, what is printed, and whether the end of a run is handed back.
fn answered<R: Threads + Sync>(
    rt: &R,
    alloc: Global,
    words: &[&str],
    document: &str,
    held: u32,
) -> Result<(Status, Vec<u8>, bool), AllocError> {
    let mut given = Vec::new(alloc);
    for word in words {
        given.push(word.to_string(alloc)?)?;
    }
    let mut weathers = Vec::new(alloc);
    for link in 0..64u32 {
        let weather: Box<dyn Weather + Send> = Box::new(alloc, Split::new(0, held))?;
        weathers.push(weather)?;
    }
    let mut source = MemorySource::new(document.as_bytes().to_vec(alloc)?, 4096, Vec::new(alloc));
    let mut sink = MemorySink::new(alloc, 4096, Vec::new(alloc));
    let answer = ipa_main(rt, alloc, &given, &mut source, &mut sink, &mut weathers);
    let has_end = answer.simulated.is_some_and(|run| run.end.is_some());
    Ok((answer.status, sink.bytes().to_vec(alloc)?, has_end))
}

#[test]
fn words_name_their_commands(rt: HostRuntime) -> Result<(), Fail> {
    let alloc = rt.alloc();
    let repaired = format!(in alloc; "{EXCLUSIVE_STEPS}{EXCLUSIVE}del p1(*)\n")?;
    let stuck = format!(in alloc; "stuck\n{LEADERS_REPORT}")?;
    for (word, document, wanted, text) in [
        (
            "check",
            "sort cup;\n",
            Status::Refused,
            "refused: line 1: byte\n",
        ),
        ("check", LEADERS, Status::Rejected, LEADERS_REPORT),
        ("repair", "", Status::Done, ""),
        ("repair", LEADERS, Status::Rejected, stuck.as_str()),
        ("repair", EXCLUSIVE, Status::Done, repaired.as_str()),
        (
            "repair",
            "sort cup;\n",
            Status::Refused,
            "refused: line 1: byte\n",
        ),
        ("audit", "", Status::Refused, "refused: journal line 1\n"),
        ("migrate", "", Status::Refused, "refused: journal line 1\n"),
        ("simulate", "", Status::Usage, USAGE_LINE),
    ] {
        let (status, printed, has_end) = answered(&rt, alloc, &[word], document, 0)?;
        assert_eq!(rt; status, wanted, "{word}");
        assert!(rt; printed.as_slice() == text.as_bytes(), "{word}");
        assert!(rt; !has_end, "{word}");
    }
    let (status, printed, _) = answered(&rt, alloc, &[], "", 0)?;
    assert_eq!(rt; status.number(), 2);
    assert_eq!(rt; printed.as_slice(), USAGE_LINE.as_bytes());
    Ok(())
}

#[test]
fn simulations_print_their_journals(rt: HostRuntime) -> Result<(), Fail> {
    let alloc = rt.alloc();
    for (held, document, journal) in [
        (0, "", NO_JOURNAL),
        (0, RACE, RACE_JOURNAL),
        (1, RACE, SPLIT_JOURNAL),
        (0, YOUNGEST, YOUNGEST_JOURNAL),
        (0, ALONE, ALONE_JOURNAL),
    ] {
        let (status, printed, has_end) = answered(&rt, alloc, &["simulate", "0"], document, held)?;
        assert_eq!(rt; status, Status::Done);
        assert_eq!(rt; printed.as_slice(), journal.as_bytes());
        assert!(rt; has_end);
        let audited = format!(in alloc; "{document}{journal}")?;
        let (status, printed, has_end) = answered(&rt, alloc, &["audit"], &audited, 0)?;
        assert_eq!(rt; status, Status::Done);
        assert!(rt; printed.starts_with(b"legal: "));
        assert!(rt; !has_end);
    }
    let (status, printed, has_end) = answered(&rt, alloc, &["simulate", "7"], LEADERS, 0)?;
    assert_eq!(rt; status, Status::Rejected);
    assert_eq!(rt; printed.as_slice(), LEADERS_REPORT.as_bytes());
    assert!(rt; !has_end);
    Ok(())
}

#[test]
fn a_generated_run_is_summed_up_twice_alike(rt: HostRuntime) -> Result<(), Fail> {
    let alloc = rt.alloc();
    let words = ["simulate", "--generate", "5"];
    let (status, summary, has_end) = answered(&rt, alloc, &words, LEADERS, 0)?;
    assert_eq!(rt; status, Status::Done);
    assert!(rt; summary.starts_with(b"generated 5\n"));
    assert!(rt; has_end);
    let (_, again, _) = answered(&rt, alloc, &words, "", 0)?;
    assert_eq!(rt; summary.as_slice(), again.as_slice());
    Ok(())
}

#[test]
fn bytes_go_from_a_reader_to_a_writer(rt: HostRuntime) -> Result<(), Fail> {
    let alloc = rt.alloc();
    let mut source = ReaderSource::new(b"accepted\n".as_slice());
    let bytes = read_all(alloc, &mut source, 9).map_err(|_| "a read fault")?;
    let mut written = Vec::new(alloc);
    let mut sink = WriterSink::new(&mut written);
    assert_eq!(rt; write_all(&mut sink, &bytes), Ok(()));
    assert_eq!(rt; written.as_slice(), b"accepted\n".as_slice());
    Ok(())
}

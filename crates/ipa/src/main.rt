//! The program `ipa`: which operations of an application can break an invariant together.
//!
//! `check` reads a document from standard input and prints `accepted`, or the report of all conflicts and unsafe
//! drops, or the line of a refusal. `repair` prints the steps of the greedy repair of such a document and the
//! specification that comes out, or `stuck` and the report of what is left. `simulate` runs a document whose
//! specification is accepted, over links that lose, double and hold what they carry, and prints the journal of the run.
//! `audit` reads a document and the journal of a run behind it, and prints that the journal is legal, or its first bad
//! line. `migrate` writes such a journal in the latest version. Each command is a call over any source and sink: its
//! answer is the verdict on the bytes that the source held, and each fault that it answers in place of it has its cause.
//! `ipa_main` picks the command by the words. The program ends with the number of the answered status.
//!
//! ```
//! ipa check < examples/exclusive_cup.ipa
//! ```
#![tactic(auto)]

mod commands;

pub use commands::{MainAnswer, ipa_main};
pub use ipa_command::Status;
pub use ipa_document_commands::{check_command, one_repair_verdict, one_verdict, repair_command};
pub use ipa_journal_commands::{audit_command, migrate_command, one_audit_verdict, one_migration};
pub use ipa_run_commands::{SimAnswer, generate_command, simulate_command};
pub use ipa_words::{Command, command_of};

#[cfg(test)]
mod tests;

use ipa_base::{ReaderSource, WriterSink};
use ipa_weather::{Clear, Kind, Lossy, Split, Weather};
use std::alloc::AllocError;
use std::process::ExitCode;
use std::rt::Env;
use std::thread::Threads;
use std::{env, io};

/// The words behind the program's own name. Words that are not UTF-8 match no row of the table of commands, as no
/// words do.
fn words_given<R: Env + AllocGlobal>(rt: &R) -> Result<Vec<String>, AllocError> {
    match env::args(rt) {
        Ok(words) => words.skip(1).collect(rt.alloc()),
        Err(error) if error.kind() == io::ErrorKind::OutOfMemory => Err(AllocError),
        Err(_) => Ok(Vec::new(rt.alloc())),
    }
}

/// The kind of weather that the words ask for; it is clear where they name none.
fn kind_in(words: &[String]) -> Kind {
    match command_of(words) {
        Some(Command::Simulate { kind, .. }) => kind,
        _ => Kind::Clear,
    }
}

/// The status of the command that the words name, over standard input and standard output, with a weather of the kind
/// that they ask for on each of the 64 links.
fn run<R>(rt: &R) -> Result<Status, AllocError>
where
    R: Env + Input + Print + AllocGlobal + Threads + Sync,
{
    let alloc = rt.alloc();
    let words = words_given(rt)?;
    let kind = kind_in(&words);
    let mut weathers = Vec::with_capacity(alloc, 64)?;
    for link in 0..64u8 {
        let weather: Box<dyn Weather + Send> = match kind {
            Kind::Clear => Box::new(alloc, Clear::new())?,
            Kind::Lossy(number) => Box::new(alloc, Lossy::new(number, link))?,
            Kind::Split(from, to) => Box::new(alloc, Split::new(from, to))?,
        };
        weathers.push(weather)?;
    }
    let mut source = ReaderSource::new(rt.reader());
    let mut sink = WriterSink::new(io::writer(rt));
    let answer = ipa_main(rt, alloc, &words, &mut source, &mut sink, &mut weathers);
    Ok(answer.status)
}

fn main(rt: HostRuntime) -> ExitCode {
    let status = run(&rt).unwrap_or(Status::NoMemory);
    ExitCode::from(status.number())
}

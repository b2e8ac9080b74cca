//! The commands by their words.
ghost use Rattle.std.specs.Prelude.{◌≡◌, length, Some, None};
ghost use Rattle.ipa_schedule.specs.Forecasts.{AreForecast};
ghost use Rattle.ipa_words.specs.Commands.{texts_of};
ghost use Rattle.ipa.specs.Obeying.{Obeys};

use ipa_base::{Sink, Source};
use ipa_command::{Status, write_text};
use ipa_document_commands::{check_command, repair_command};
use ipa_journal_commands::{audit_command, migrate_command};
use ipa_run_commands::{SimAnswer, generate_command, simulate_command};
use ipa_weather::Weather;
use ipa_words::{Command, USAGE, command_of};
use std::alloc::Global;
use std::thread::Threads;

/// What the program answers: a status, and beside it what a simulation hands back.
#[derive(Drop)]
pub struct MainAnswer {
    /// The status.
    pub status: Status,
    /// The answer of `simulate` or `simulate --generate`; `None` where the words name neither.
    pub simulated: Option<SimAnswer>,
}

/// The answer of a command that runs no schedule.
fn plain(status: Status) -> MainAnswer
    ensures status { result.status ≡ status }
    ensures nothing { result.simulated ≡ None }
{
    MainAnswer {
        status,
        simulated: None,
    }
}

/// The answer of a command that runs one.
fn simulated(answer: SimAnswer) -> MainAnswer
    ensures status { result.status ≡ answer.status }
    ensures handed { result.simulated ≡ Some answer }
{
    MainAnswer {
        status: answer.status,
        simulated: Some(answer),
    }
}

/// Does what the words name, which are those behind the program's own name: all clauses of that command hold. A
/// simulation asks the weather of the link from replica a to replica b at place 8a + b. Words that name no command read
/// nothing, and the usage line is written.
pub fn ipa_main<R: Threads + Sync, S: Source, K: Sink>(
    rt: &R,
    alloc: Global,
    words: &[String],
    source: &mut S,
    sink: &mut K,
    weathers: &mut Vec<Box<dyn Weather + Send>>,
) -> MainAnswer
    requires weathers { length weathers.old.items ≡ 64 }
    ensures obeys { Obeys (sink.new ≡ sink.old) (source.new ≡ source.old) (weathers.new ≡ weathers.old) (record {
      left_before = S.left source.old;
      left_after = S.left source.new;
      read_faults_before = S.faults source.old;
      read_faults_after = S.faults source.new;
      written_before = K.written sink.old;
      written_after = K.written sink.new;
      write_faults_before = K.faults sink.old;
      write_faults_after = K.faults sink.new;
    }) (AreForecast (λ w. due w) (λ w. asked w) weathers.old.items weathers.new.items) result (texts_of words.now) }
    ensures left { length weathers.new.items ≡ 64 }
{
    match command_of(words) {
        Some(Command::Check) => plain(check_command(rt, alloc, source, sink)),
        Some(Command::Repair) => plain(repair_command(rt, alloc, source, sink)),
        Some(Command::Simulate { number, .. }) => {
            simulated(simulate_command(rt, alloc, number, weathers, source, sink))
        }
        Some(Command::Generate { number }) => {
            simulated(generate_command(rt, alloc, number, weathers, sink))
        }
        Some(Command::Audit) => plain(audit_command(rt, alloc, source, sink)),
        Some(Command::Migrate) => plain(migrate_command(alloc, source, sink)),
        None => plain(write_text(sink, USAGE.as_bytes(), Status::Usage)),
    }
}

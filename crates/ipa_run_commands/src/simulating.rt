//! The command `simulate NUMBER [WEATHER]`.
ghost use Rattle.std.specs.Prelude.{◌≡◌, ◌≤◌, length};
ghost use Rattle.ipa_schedule.specs.Forecasts.{AreForecast};
ghost use Rattle.ipa_command.specs.Steps.{IsAnswered};
ghost use Rattle.ipa_run_commands.specs.RunVerdicts.{AnswersRun, RunVerdict, IsRunIn, IfGiven, is_of_run, answer_in, handed_in};

use crate::runs::{Told, judge};
use crate::simulated::{SimAnswer, conclude};
use crate::telling::Telling;
use ipa_base::{Sink, Source};
use ipa_command::{LONGEST_DOCUMENT, Stop, read_input};
use ipa_weather::Weather;
use std::alloc::Global;
use std::thread::Threads;

/// What `simulate` answers to what the source holds.
fn answer_of<R: Threads + Sync, S: Source>(
    rt: &R,
    alloc: Global,
    number: u64,
    weathers: &mut Vec<Box<dyn Weather + Send>>,
    source: &mut S,
) -> Result<Told, Stop>
    requires weathers { length weathers.old.items ≡ 64 }
    ensures answered { IsAnswered is_of_run (RunVerdict Telling.Journal number (handed_in result)) (S.left source.old) (S.left source.new) (S.faults source.old) (S.faults source.new) (answer_in result) }
    ensures run { IsRunIn number result }
    ensures fates { IfGiven (AreForecast (λ w. due w) (λ w. asked w) weathers.old.items weathers.new.items) (handed_in result) }
    ensures left { length weathers.new.items ≡ 64 }
{
    let bytes = read_input(alloc, source, LONGEST_DOCUMENT)?;
    judge(rt, alloc, Telling::Journal, number, weathers, &bytes)
}

/// Reads a document from the source, runs its schedule with this number in these weathers, and writes the run's journal
/// to the sink; or the line `full` where a log was without room; or the report or the line that refuses the document:
/// the verdict on the bytes that the source held. The weather of the link from replica a to replica b has the place
/// 8a + b. The text is made whole before its first byte is written. The fates of the answer are those that the weathers
/// were due to give.
pub fn simulate_command<R: Threads + Sync, S: Source, K: Sink>(
    rt: &R,
    alloc: Global,
    number: u64,
    weathers: &mut Vec<Box<dyn Weather + Send>>,
    source: &mut S,
    sink: &mut K,
) -> SimAnswer
    requires weathers { length weathers.old.items ≡ 64 }
    ensures run { AnswersRun Telling.Journal number (sink.new ≡ sink.old) (record {
      left_before = S.left source.old;
      left_after = S.left source.new;
      read_faults_before = S.faults source.old;
      read_faults_after = S.faults source.new;
      written_before = K.written sink.old;
      written_after = K.written sink.new;
      write_faults_before = K.faults sink.old;
      write_faults_after = K.faults sink.new;
    }) (AreForecast (λ w. due w) (λ w. asked w) weathers.old.items weathers.new.items) result }
    ensures left { length weathers.new.items ≡ 64 }
{
    let ended = answer_of(rt, alloc, number, weathers, source);
    conclude(sink, ended)
}

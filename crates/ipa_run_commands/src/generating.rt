//! The command `simulate --generate NUMBER`.
ghost use Rattle.std.specs.Prelude.{◌≡◌, ◌≤◌, [], length, Some};
ghost use Rattle.ipa_work.specs.Workloads.{workload};
ghost use Rattle.ipa_schedule.specs.Forecasts.{AreForecast};
ghost use Rattle.ipa_command.specs.Steps.{IsAnswered};
ghost use Rattle.ipa_run_commands.specs.RunVerdicts.{AnswersRun, RunVerdict, IsRunIn, IfGiven, is_of_run, answer_in, handed_in};

use crate::runs::{Told, judge};
use crate::simulated::{SimAnswer, conclude};
use crate::telling::Telling;
use ipa_base::Sink;
use ipa_command::Stop;
use ipa_weather::Weather;
use ipa_work::generate;
use std::alloc::Global;
use std::thread::Threads;

/// What `simulate --generate` answers for a number.
fn answer_of<R: Threads + Sync>(
    rt: &R,
    alloc: Global,
    number: u64,
    weathers: &mut Vec<Box<dyn Weather + Send>>,
) -> Result<Told, Stop>
    requires weathers { length weathers.old.items ≡ 64 }
    ensures answered { IsAnswered is_of_run (RunVerdict Telling.Summary number (handed_in result)) (Some (workload number)) (Some []) 0 0 (answer_in result) }
    ensures run { IsRunIn number result }
    ensures fates { IfGiven (AreForecast (λ w. due w) (λ w. asked w) weathers.old.items weathers.new.items) (handed_in result) }
    ensures left { length weathers.new.items ≡ 64 }
{
    let bytes = generate(alloc, number)?;
    judge(rt, alloc, Telling::Summary, number, weathers, &bytes)
}

/// Makes the document of a number, runs its schedule with the same number in these weathers, and writes the summary of
/// the run to the sink. It reads nothing, and answers as a command would whose source holds the document and does not
/// fail.
pub fn generate_command<R: Threads + Sync, K: Sink>(
    rt: &R,
    alloc: Global,
    number: u64,
    weathers: &mut Vec<Box<dyn Weather + Send>>,
    sink: &mut K,
) -> SimAnswer
    requires weathers { length weathers.old.items ≡ 64 }
    ensures run { AnswersRun Telling.Summary number (sink.new ≡ sink.old) (record {
      left_before = Some (workload number);
      left_after = Some [];
      read_faults_before = 0;
      read_faults_after = 0;
      written_before = K.written sink.old;
      written_after = K.written sink.new;
      write_faults_before = K.faults sink.old;
      write_faults_after = K.faults sink.new;
    }) (AreForecast (λ w. due w) (λ w. asked w) weathers.old.items weathers.new.items) result }
    ensures left { length weathers.new.items ≡ 64 }
{
    let ended = answer_of(rt, alloc, number, weathers);
    conclude(sink, ended)
}

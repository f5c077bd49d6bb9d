//! The top call of the program.
ghost use Rattle.std.specs.Prelude.{◌≡◌, ◌⊎◌};
ghost use Rattle.roman_io.specs.SinkCalls.{WritesTo, FailsWith};
ghost use Rattle.roman_top.specs.Command.{command_as, command_of, usage_line};
ghost use Rattle.roman_top.specs.Complete.{AnswersWherePossible};
ghost use Rattle.roman_top.specs.ContractWords.{LeavesOrTakesInput, ServesCommand};
ghost use Rattle.roman_top.specs.Faults.{TakesInput};
ghost use Rattle.roman_top.specs.Headline.{HasHeadline};
ghost use Rattle.roman_top.specs.Served.{Served};
ghost use Rattle.roman_top.specs.World.{world_of};

use crate::advise::advise;
use crate::certify::certify;
use crate::check::check_certificate;
use crate::command::{Command, command_of};
use crate::make::make_summary;
use crate::resilience::resilience;
use crate::run::{run_input, run_shelf};
use crate::shortest::shortest;
use crate::synth::synth_report;
use roman_hearing::lines_are_read;
use roman_io::{Failed, Shelf, Sink, Source, Steps, Words};
use roman_model::greatest_is_complete;
use roman_opening::{Status, finish};
use std::alloc::Global;
use std::sync::ledger::Ledger;

/// Runs the command that the words after the program's name form, and returns how it ended. Writes
/// all text to `out`. Each [`Status`] states which text was written.
///
/// - `synth SYSTEM` writes the report on the starting states of the system document that the shelf
///   has under that name. The status states whether the start pair is related.
/// - `run SYSTEM` answers the lines of a session of that system, to its end or to its line `quit`.
///   It reads the lines from `input`. `run SYSTEM SESSION` reads them from the shelf.
/// - `certify SYSTEM` writes the certificate of the pairs that aren't related. `check SYSTEM CERT`
///   writes the verdict on the certificate that the shelf has under that name.
/// - `make N`, for N from 1 to 10, makes a system of N workers and runs a script on a session of
///   it. It writes how many pairs there are, how many are related and whether the current one is:
///   at the start, after each of the script's first four lines, and at its end. It fetches nothing.
/// - `resilience SYSTEM` writes the number of services and the outlook of the start pair. An
///   outlook states whether the pair is related, how many pairs are related, and how many services
///   can serve an action, summed over all actions and all pairs, related or not. Then it writes the
///   outlook after each one and each two of the services freeze, and after they die.
/// - `shortest SYSTEM` writes how many pairs there are, how many are related, and how many have
///   each depth. It writes the depth of the start pair, or that it is related. The depth of a pair
///   is the least number of requests within which the opponent wins from it.
/// - `advise SYSTEM COSTS H`, for H from 1 to 64, writes the least worst cost of H requests by the
///   costs on the shelf. For each action that is allowed at the start pair it writes the service to
///   use, and the worst cost of the H requests then. For each related pair it writes the least
///   worst cost of 1 to H requests. It writes `answer none` if the start pair isn't related. It
///   writes `limit 1048576` if there are more values, related pairs times H, than 1,048,576.
///
/// Returns on every input. Takes bytes from `input` for `run SYSTEM` alone.
pub fn serve<F: Shelf, I: Source, O: Sink, L: Ledger>(
    alloc: Global,
    words: &Words,
    shelf: &mut F,
    input: &mut I,
    out: &mut O,
    steps: &mut Steps<L>,
) -> Status
    // The written text and the status are those of a run, unless a fault or running out of memory
    // ended it. `Served` also states the written text in these cases, and the count of faults that
    // rose.
    ensures served { Served (command_of words.now)
        (world_of F.Shelf I.Source O.Sink shelf.old input.old out.old)
        (world_of F.Shelf I.Source O.Sink shelf.new input.new out.new) result }

    // The meaning of a run's text, unless a fault or running out of memory ended the run: a session
    // has a turn for each line, which leads to the state of the line's event, and whose text
    // answers that event. `HasHeadline` states in terms of the greatest ND-simulation what these
    // texts, the report of `synth` and the texts of the other commands mean.
    ensures headline { HasHeadline (command_of words.now)
        (world_of F.Shelf I.Source O.Sink shelf.old input.old out.old)
        (world_of F.Shelf I.Source O.Sink shelf.new input.new out.new) result }

    // If no count of faults rises, a command is answered or runs out of memory. It needs an
    // accepted document within its limit, and a session or certificate that isn't too long.
    // `advise` also needs accepted costs, and at most 1,048,576 values.
    ensures complete { AnswersWherePossible (command_of words.now)
        (world_of F.Shelf I.Source O.Sink shelf.old input.old out.old)
        (world_of F.Shelf I.Source O.Sink shelf.new input.new out.new) result }

    // Only a session that is read from the input changes it.
    ensures input { (input.new ≡ input.old) ⊎ TakesInput (command_of words.now)
        (world_of F.Shelf I.Source O.Sink shelf.old input.old out.old)
        (world_of F.Shelf I.Source O.Sink shelf.new input.new out.new) result }
{
    lines_are_read();
    greatest_is_complete();
    match command_of(words) {
        Some(command) => obey(alloc, command, shelf, input, out, steps),
        None => finish(put_usage(out), Status::Usage),
    }
}

/// Writes the usage line, which lists the commands.
fn put_usage<O: Sink>(out: &mut O) -> Result<(), Failed>
    ensures puts { WritesTo O.Sink out.old out.new usage_line result }
    ensures cause { FailsWith O.Sink out.old out.new result }
{
    out.put(
        b"usage: roman synth SYSTEM | run SYSTEM [SESSION] | certify SYSTEM | check SYSTEM CERT | make N | resilience SYSTEM | shortest SYSTEM | advise SYSTEM COSTS H\n",
    )
}

#[tactic(auto, using(crate::proofs::ServedLemmas::job_served))]
fn obey<F: Shelf, I: Source, O: Sink, L: Ledger>(
    alloc: Global,
    command: Command<'_>,
    shelf: &mut F,
    input: &mut I,
    out: &mut O,
    steps: &mut Steps<L>,
) -> Status
    ensures served { ServesCommand F.Shelf I.Source O.Sink (command_as command.entry)
        shelf.old input.old out.old shelf.new input.new out.new result }
    ensures input { LeavesOrTakesInput F.Shelf I.Source O.Sink (command_as command.entry)
        shelf.old input.old out.old shelf.new input.new out.new result }
{
    match command {
        Command::Synth(system) => synth_report(alloc, system, shelf, out, steps),
        Command::Run(system) => run_input(alloc, system, shelf, input, out, steps),
        Command::RunOnShelf { system, session } => {
            run_shelf(alloc, system, session, shelf, out, steps)
        }
        Command::Certify(system) => certify(alloc, system, shelf, out, steps),
        Command::Check {
            system,
            certificate,
        } => check_certificate(alloc, system, certificate, shelf, out, steps),
        Command::Shortest(system) => shortest(alloc, system, shelf, out, steps),
        Command::Advise {
            system,
            costs,
            requests,
        } => advise(alloc, system, costs, requests, shelf, out, steps),
        Command::Resilience(system) => resilience(alloc, system, shelf, out, steps),
        Command::Make(workers) => make_summary(alloc, workers, out, steps),
    }
}

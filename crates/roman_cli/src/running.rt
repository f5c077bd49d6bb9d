//! Runs the program on its arguments, over any shelf, input and output.
ghost use Rattle.std.specs.Prelude.{◌≡◌, ◌<◌, ◌⊎◌, map, string_bytes, IfOk};
ghost use Rattle.std.specs.Vec.Iter.{into_iter_items};
ghost use Rattle.roman_cli.specs.Running.{asked_by, words_after_name, ServesArguments};
ghost use Rattle.roman_top.specs.Complete.{AnswersWherePossible};
ghost use Rattle.roman_top.specs.Faults.{TakesInput};
ghost use Rattle.roman_top.specs.Headline.{HasHeadline};
ghost use Rattle.roman_top.specs.World.{world_of};
ghost use Rattle.roman_opening.specs.Numbers.{status_number};

use roman_io::{Shelf, Sink, Source, Steps, Words};
use roman_top::{Status, serve};
use std::alloc::{AllocError, Global};
use std::env::Args;
use std::sync::ledger::{Blank, Ledger};

/// How a run of the program ended.
#[derive(Drop)]
pub struct Ended {
    /// The words after the program's name, or none if there was no memory for them.
    pub words: Words,
    /// The status.
    pub status: Status,
    /// The number of the status, with which the program ends.
    pub number: u8,
}

impl Ended {
    fn new(words: Words, status: Status) -> Ended
        ensures status { result.status ≡ status }
        ensures number { result.number ≡ status_number status }
    {
        let number = status.number();
        Ended {
            words,
            status,
            number,
        }
    }
}

/// Runs the command that the arguments form, with a counter of steps on `blank`. The first argument
/// is the program's name. If there is no memory for the words, nothing is done, and the status is
/// `Memory`.
#[tactic(auto, using(crate::proofs::RunningLemmas::answers_out, crate::proofs::RunningLemmas::headline_out, crate::proofs::RunningLemmas::stopped))]
pub fn run<F: Shelf, I: Source, O: Sink, L: Ledger>(
    alloc: Global,
    args: Args,
    shelf: &mut F,
    input: &mut I,
    out: &mut O,
    blank: Blank,
) -> Ended
    requires name { blank.name ≡ L.name }
    requires parts { blank.parts ≡ L.parts }
    requires some { 0 < L.parts }
    // The program ends with the number of the status.
    ensures number { result.number ≡ status_number result.status }

    // The promise of `serve` for all words after the program's name.
    ensures served { ServesArguments (map string_bytes (into_iter_items args))
        (world_of F.Shelf I.Source O.Sink shelf.old input.old out.old)
        (world_of F.Shelf I.Source O.Sink shelf.new input.new out.new) result.status }
    ensures headline { HasHeadline (asked_by (map string_bytes (into_iter_items args)))
        (world_of F.Shelf I.Source O.Sink shelf.old input.old out.old)
        (world_of F.Shelf I.Source O.Sink shelf.new input.new out.new) result.status }
    ensures complete { AnswersWherePossible (asked_by (map string_bytes (into_iter_items args)))
        (world_of F.Shelf I.Source O.Sink shelf.old input.old out.old)
        (world_of F.Shelf I.Source O.Sink shelf.new input.new out.new) result.status }
    ensures input { (input.new ≡ input.old) ⊎ TakesInput (asked_by (map string_bytes (into_iter_items args)))
        (world_of F.Shelf I.Source O.Sink shelf.old input.old out.old)
        (world_of F.Shelf I.Source O.Sink shelf.new input.new out.new) result.status }
{
    let mut steps = Steps::<L>::new(blank);
    match words_of(alloc, args) {
        Ok(words) => {
            let status = serve(alloc, &words, shelf, input, out, &mut steps);
            Ended::new(words, status)
        }
        Err(_) => Ended::new(Words::new(alloc), Status::Memory),
    }
}

/// Returns the words after the program's name. Fails only when out of memory.
fn words_of(alloc: Global, args: Args) -> Result<Words, AllocError>
    ensures { IfOk result (λ words. words ≡ words_after_name (map string_bytes (into_iter_items args))) }
{
    let mut rest = args;
    let _ = rest.next();
    let mut words = Words::new(alloc);
    for word in rest {
        words.push(word.as_str())?;
    }
    Ok(words)
}

//! The command `shortest SYSTEM`.
ghost use Rattle.roman_top.specs.Command.{Shortest};
ghost use Rattle.roman_top.specs.Endings.{DoesJobOn};

use roman_io::{Shelf, Sink, Steps};
use roman_opening::{Status, finish, open_relation};
use roman_rank::{Ranks, write_depths};
use std::alloc::Global;
use std::sync::ledger::Ledger;

/// Writes how many pairs there are, how many are related and how many have each depth, and the
/// depth of the start pair.
#[tactic(auto, using(crate::proofs::OpeningLemmas::early_does))]
pub(crate) fn shortest<F: Shelf, O: Sink, L: Ledger>(
    alloc: Global,
    system: &str,
    shelf: &mut F,
    out: &mut O,
    steps: &mut Steps<L>,
) -> Status
    ensures { DoesJobOn F.Shelf O.Sink system.now Shortest shelf.old out.old shelf.new out.new result }
{
    let related = match open_relation(alloc, system, shelf, out, steps) {
        Ok(related) => related,
        Err(status) => return status,
    };
    match Ranks::build(alloc, &related.relation, steps) {
        Ok(ranks) => finish(write_depths(&ranks, related.start, out), Status::Done),
        Err(_) => Status::Memory,
    }
}

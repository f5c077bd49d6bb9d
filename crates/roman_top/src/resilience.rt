//! The command `resilience SYSTEM`.
ghost use Rattle.roman_top.specs.Command.{Resilience};
ghost use Rattle.roman_top.specs.Endings.{DoesJobOn};

use crate::resilience_text::put_outlooks;
use roman_io::{Shelf, Sink, Steps};
use roman_opening::{Status, finish, open_relation};
use roman_whatif::Losses;
use std::alloc::Global;
use std::sync::ledger::Ledger;

/// Writes the outlook of the starting states, and their outlook without each one and each two of
/// the services. Allocates all memory before it writes anything.
#[tactic(auto, using(crate::proofs::OpeningLemmas::early_does))]
pub(crate) fn resilience<F: Shelf, O: Sink, L: Ledger>(
    alloc: Global,
    system: &str,
    shelf: &mut F,
    out: &mut O,
    steps: &mut Steps<L>,
) -> Status
    ensures { DoesJobOn F.Shelf O.Sink system.now Resilience shelf.old out.old shelf.new out.new result }
{
    let related = match open_relation(alloc, system, shelf, out, steps) {
        Ok(related) => related,
        Err(status) => return status,
    };
    match Losses::build(alloc, &related.relation, related.start, steps) {
        Ok(losses) => finish(put_outlooks(&related.relation, &losses, out), Status::Done),
        Err(_) => Status::Memory,
    }
}

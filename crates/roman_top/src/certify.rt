//! The command `certify SYSTEM`.
ghost use Rattle.roman_top.specs.Command.{Certify};
ghost use Rattle.roman_top.specs.Endings.{DoesJobOn};

use roman_cert::write_order;
use roman_io::{Shelf, Sink, Steps};
use roman_opening::{Status, finish, open_relation};
use std::alloc::Global;
use std::sync::ledger::Ledger;

/// Writes the certificate of the system.
#[tactic(auto, using(crate::proofs::OpeningLemmas::early_does))]
pub(crate) fn certify<F: Shelf, O: Sink, L: Ledger>(
    alloc: Global,
    system: &str,
    shelf: &mut F,
    out: &mut O,
    steps: &mut Steps<L>,
) -> Status
    ensures { DoesJobOn F.Shelf O.Sink system.now Certify shelf.old out.old shelf.new out.new result }
{
    match open_relation(alloc, system, shelf, out, steps) {
        Ok(related) => finish(write_order(&related.relation, out), Status::Done),
        Err(status) => status,
    }
}

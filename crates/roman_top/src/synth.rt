//! The command `synth SYSTEM`.
ghost use Rattle.std.specs.Prelude.{◌≡◌};
ghost use Rattle.roman_top.specs.Command.{Synth};
ghost use Rattle.roman_top.specs.Endings.{DoesJobOn, status_of};

use roman_io::{Shelf, Sink, Steps};
use roman_opening::{Status, finish, open_session};
use std::alloc::Global;
use std::sync::ledger::Ledger;

/// Writes the report on the starting states of the system document of that name. The status states
/// whether the start pair is related. Fails as a run of `synth` does, with its line.
#[tactic(auto, using(crate::proofs::OpeningLemmas::early_does))]
pub fn synth_report<F: Shelf, O: Sink, L: Ledger>(
    alloc: Global,
    system: &str,
    shelf: &mut F,
    out: &mut O,
    steps: &mut Steps<L>,
) -> Status
    ensures { DoesJobOn F.Shelf O.Sink system.now Synth shelf.old out.old shelf.new out.new result }
{
    let session = match open_session(alloc, system, shelf, out, steps) {
        Ok(session) => session,
        Err(status) => return status,
    };
    session.known(); // the situation is well formed
    let status = status_of(session.composes());
    finish(session.report(out), status)
}

/// Returns `Done` for a related pair, and `No` for any other.
fn status_of(related: bool) -> Status
    ensures { result ≡ status_of related }
{
    if related { Status::Done } else { Status::No }
}

//! The commands `run SYSTEM` and `run SYSTEM SESSION`.
ghost use Rattle.std.specs.Prelude.{◌≡◌, None, Some};
ghost use Rattle.roman_hearing.specs.Hearing.{CausedBy};
ghost use Rattle.roman_opening.specs.Outputs.{outputs_of};
ghost use Rattle.roman_top.specs.Command.{Run, On};
ghost use Rattle.roman_top.specs.ContractWords.{CausedByShelf, HearsText, LeavesOrTakesInput, ServesCommand};
ghost use Rattle.roman_top.specs.Endings.{run_status};
ghost use Rattle.roman_top.specs.Served.{ServedBeside};

use roman_hearing::{HearError, hear};
use roman_io::{Shelf, ShelfSource, Sink, Source, Steps};
use roman_opening::{Status, open_session};
use roman_session::Session;
use std::alloc::Global;
use std::sync::ledger::Ledger;

/// Begins a session of the system, and answers the lines of the input.
pub(crate) fn run_input<F: Shelf, I: Source, O: Sink, L: Ledger>(
    alloc: Global,
    system: &str,
    shelf: &mut F,
    input: &mut I,
    out: &mut O,
    steps: &mut Steps<L>,
) -> Status
    ensures served { ServesCommand F.Shelf I.Source O.Sink (On system.now (Run None))
        shelf.old input.old out.old shelf.new input.new out.new result }
    ensures input { LeavesOrTakesInput F.Shelf I.Source O.Sink (On system.now (Run None))
        shelf.old input.old out.old shelf.new input.new out.new result }
{
    let mut session = match open_session(alloc, system, shelf, out, steps) {
        Ok(session) => session,
        Err(status) => return status,
    };
    run_status(hear(&mut session, input, out, steps), Status::ReadFault)
}

/// Begins a session of the system, and answers the lines of a text on the shelf.
pub(crate) fn run_shelf<F: Shelf, O: Sink, L: Ledger>(
    alloc: Global,
    system: &str,
    name: &str,
    shelf: &mut F,
    out: &mut O,
    steps: &mut Steps<L>,
) -> Status
    ensures { ServedBeside (Some (On system.now (Run (Some name.now))))
        (outputs_of F.Shelf O.Sink shelf.old out.old) (outputs_of F.Shelf O.Sink shelf.new out.new) result }
{
    let mut session = match open_session(alloc, system, shelf, out, steps) {
        Ok(session) => session,
        Err(status) => return status,
    };
    run_status(
        run_text(&mut session, name, shelf, out, steps),
        Status::ShelfFault,
    )
}

/// Returns the status of a run whose session had this result. After a failed read it is `fault`.
fn run_status(heard: Result<(), HearError>, fault: Status) -> Status
    ensures { result ≡ run_status fault heard }
{
    match heard {
        Ok(()) => Status::Done,
        Err(HearError::ReadFault) => fault,
        Err(HearError::WriteFault) => Status::WriteFault,
        Err(HearError::TooLong) => Status::TooLong,
    }
}

/// Answers the lines of the text named `name` on the shelf.
fn run_text<F: Shelf, O: Sink, L: Ledger>(
    session: &mut Session,
    name: &str,
    shelf: &mut F,
    out: &mut O,
    steps: &mut Steps<L>,
) -> Result<(), HearError>
    ensures hears { HearsText F.Shelf O.Sink name.now session.old shelf.old out.old session.new out.new result }
    ensures reads { CausedByShelf F.Shelf shelf.old shelf.new result }
    ensures writes { CausedBy HearError.WriteFault (O.faults out.old) (O.faults out.new) result }
    ensures texts { F.texts shelf.new ≡ F.texts shelf.old }
{
    let mut source = ShelfSource::new(shelf, name);
    hear(session, &mut source, out, steps)
}

//! The command `make N`.
ghost use Rattle.roman_top.specs.Endings.{PrintsTo};
ghost use Rattle.roman_top.specs.Run.{DoesMake};

use crate::make_text::{put_summary, run_script};
use crate::workers::Workers;
use roman_io::{Sink, Steps};
use roman_make::{MakeError, make};
use roman_opening::{Status, finish};
use roman_session::{BuildError, Session};
use std::alloc::Global;
use std::sync::ledger::Ledger;

/// Makes a system of that many workers, runs the script on a session of it, and writes the summary.
pub(crate) fn make_summary<O: Sink, L: Ledger>(
    alloc: Global,
    workers: Workers,
    out: &mut O,
    steps: &mut Steps<L>,
) -> Status
    ensures { PrintsTo O.Sink (DoesMake workers.count) out.old out.new result }
{
    let n = workers.count;
    let library = match make(alloc, n) {
        Ok(library) => library,
        Err(MakeError::Range) => unreachable!(),
        Err(MakeError::Memory) => return Status::Memory,
    };
    let mut session = match Session::build(alloc, library, steps) {
        Ok(session) => session,
        Err(BuildError::Limit) => unreachable!(),
        Err(BuildError::Memory) => return Status::Memory,
    };
    let stages = run_script(&mut session, steps);
    finish(put_summary(n, &stages, out), Status::Done)
}

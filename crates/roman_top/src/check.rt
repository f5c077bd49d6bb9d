//! The command `check SYSTEM CERT`.
ghost use Rattle.std.specs.Prelude.{◌<◌};
ghost use Rattle.roman_model.specs.Numbers.{sizes_of, count};
ghost use Rattle.roman_check.specs.Verdicts.{verdict_of};
ghost use Rattle.roman_joint.specs.NamedSys.{system_of};
ghost use Rattle.roman_top.specs.Command.{Check};
ghost use Rattle.roman_top.specs.ContractWords.{OpensVerdict};
ghost use Rattle.roman_top.specs.Endings.{DoesJobOn, PrintsTo};
ghost use Rattle.roman_top.specs.Run.{SaysVerdict};

use crate::check_text::{put_greatest, put_rejected};
use roman_check::{CheckError, Verdict, check};
use roman_io::{Shelf, ShelfSource, Sink, Steps};
use roman_opening::{Status, finish, open_system};
use roman_start::Seated;
use std::alloc::Global;
use std::sync::ledger::Ledger;

/// Checks the certificate of that name for the system document of that name, and writes the
/// verdict. The status is `Done` if the certificate is right and complete. Fails as a run of
/// `check` does, with its line.
#[tactic(auto, using(crate::proofs::OpeningLemmas::early_does))]
pub fn check_certificate<F: Shelf, O: Sink, L: Ledger>(
    alloc: Global,
    system: &str,
    certificate: &str,
    shelf: &mut F,
    out: &mut O,
    steps: &mut Steps<L>,
) -> Status
    ensures { DoesJobOn F.Shelf O.Sink system.now (Check certificate.now)
        shelf.old out.old shelf.new out.new result }
{
    let seated = match open_system(alloc, system, shelf, out) {
        Ok(seated) => seated,
        Err(status) => return status,
    };
    match verdict_on(alloc, &seated, certificate, shelf, steps) {
        Ok(verdict) => tell(verdict, out),
        Err(status) => status,
    }
}

/// Writes a verdict.
fn tell<O: Sink>(verdict: Verdict, out: &mut O) -> Status
    ensures { PrintsTo O.Sink (SaysVerdict (verdict_of verdict)) out.old out.new result }
{
    match verdict {
        Verdict::Greatest { related, start } => {
            finish(put_greatest(related, start, out), Status::Done)
        }
        Verdict::Rejected { line, why } => finish(put_rejected(line, why, out), Status::No),
    }
}

/// Returns the verdict on the certificate named `name` on the shelf, or the status with which the
/// run ends without one.
fn verdict_on<F: Shelf, L: Ledger>(
    alloc: Global,
    seated: &Seated,
    name: &str,
    shelf: &mut F,
    steps: &mut Steps<L>,
) -> Result<Verdict, Status>
    requires { seated.now.start < count (sizes_of (system_of seated.now.joint)) }
    ensures { OpensVerdict F.Shelf seated.now.joint seated.now.start name.now shelf.old shelf.new result }
{
    let mut source = ShelfSource::new(shelf, name);
    match check(alloc, &seated.joint, seated.start, &mut source, steps) {
        Ok(verdict) => Ok(verdict),
        Err(CheckError::Fault) => Err(Status::ShelfFault),
        Err(CheckError::TooLong) => Err(Status::TooLong),
        Err(CheckError::Memory) => Err(Status::Memory),
    }
}

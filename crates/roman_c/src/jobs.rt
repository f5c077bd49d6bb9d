//! Does a job on a document of a shelf: reports on it, or checks a certificate.
ghost use Rattle.std.specs.Prelude.{◌≡◌, option_copied};
ghost use Rattle.roman_io.specs.Faults.{Rose};
ghost use Rattle.roman_io.specs.Memory.{texts_of};
ghost use Rattle.roman_top.specs.Endings.{DoesJobOn};
ghost use Rattle.roman_c.specs.Openings.{CanCount};
ghost use Rattle.roman_c.specs.Jobs.{HasWorked, job_number, job_of};

use crate::opening::Begun;
use crate::shelf::TextShelf;
use crate::talk::{Reply, Talk};
use roman_io::{Shelf, Sink, Steps};
use roman_opening::Status;
use roman_top::{check_certificate, synth_report};
use std::alloc::Global;
use std::sync::ledger::{Blank, Ledger};

/// Reports on a document, or checks the certificate of that name for it. The reply is the text that
/// the program writes, and the talk has no session.
pub(crate) fn work<L: Ledger>(
    alloc: Global,
    shelf: &mut TextShelf,
    name: &str,
    certificate: Option<&str>,
    blank: Blank,
) -> Begun
    requires { CanCount L.Ledger blank }
    ensures works { HasWorked (option_copied certificate.entry) (texts_of shelf.old.files.items) name.now result }
    ensures missing { result.status ≡ 5 → Rose shelf.old.missing shelf.new.missing }
    ensures texts { texts_of shelf.new.files.items ≡ texts_of shelf.old.files.items }
{
    let mut reply = Reply::new(alloc);
    let mut steps = Steps::<L>::new(blank);
    let status = run(alloc, name, certificate, shelf, &mut reply, &mut steps);
    Begun {
        talk: Talk {
            session: None,
            reply,
        },
        status: job_number(status),
    }
}

/// Does the job as the program does.
fn run<F: Shelf, O: Sink, L: Ledger>(
    alloc: Global,
    name: &str,
    certificate: Option<&str>,
    shelf: &mut F,
    out: &mut O,
    steps: &mut Steps<L>,
) -> Status
    ensures { let job = job_of (option_copied certificate.entry) in
        DoesJobOn F.Shelf O.Sink name.now job shelf.old out.old shelf.new out.new result }
{
    match certificate {
        None => synth_report(alloc, name, shelf, out, steps),
        Some(certificate) => check_certificate(alloc, name, certificate, shelf, out, steps),
    }
}

/// Returns the number of a status. For a text that couldn't be written it is that of out of memory.
fn job_number(status: Status) -> u32
    ensures { result ≡ job_number status }
{
    match status {
        Status::WriteFault => 9,
        other => u32::from(other.number()),
    }
}

//! Runs the program `roman` on files, standard input and standard output.
#![tactic(auto)]

mod complaint;
mod folder;
mod input;
mod output;
mod running;

use complaint::{complain, complain_of};
use folder::FolderShelf;
use input::StdSource;
use output::StdSink;
use roman_top::Status;
use running::run;
use std::env;
use std::io::{self, ErrorKind};
use std::marker::Brand;
use std::process::ExitCode;
use std::sync::ledger::Blank;

fn main(rt: HostRuntime) -> ExitCode {
    let args = match env::args(&rt) {
        Ok(args) => args,
        Err(error) => return ExitCode::from(end_without_words(&rt, &error).number()),
    };
    let mut shelf = FolderShelf::new(&rt, rt.alloc());
    let mut input = StdSource::new(&rt);
    let mut out = StdSink::new(&rt);
    let ended = run::<FolderShelf<'_, HostRuntime>, StdSource, StdSink, Brand>(
        rt.alloc(),
        args,
        &mut shelf,
        &mut input,
        &mut out,
        Blank::new(1),
    );
    let _ = complain_of(&rt, &ended, &mut shelf, &out);
    ExitCode::from(ended.number)
}

/// Ends a run whose arguments the system can't give: there is no memory for them, or one of them
/// isn't valid text. Returns the status.
fn end_without_words(rt: &HostRuntime, error: &io::Error) -> Status {
    let status = match error.kind() {
        ErrorKind::OutOfMemory => Status::Memory,
        _ => Status::Usage,
    };
    let _ = complain(rt, status);
    status
}

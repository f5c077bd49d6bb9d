//! Explains on standard error how a run ended, if the output doesn't.

use crate::folder::{FolderShelf, Unread};
use crate::output::StdSink;
use crate::running::Ended;
use roman_io::Words;
use roman_library::document;
use roman_read::{member, text};
use roman_start::{extent_of, is_within, product};
use roman_top::Status;
use std::alloc::Global;
use std::io::{self, ErrorKind};

/// Writes to standard error why a run ended with its status, unless the output explains it.
pub fn complain_of(
    rt: &HostRuntime,
    ended: &Ended,
    shelf: &mut FolderShelf<'_, HostRuntime>,
    out: &StdSink,
) -> io::Result<()> {
    let words = &ended.words;
    match ended.status {
        Status::Refused if words.len() > 1 => complain_of_form(rt, words.at(1), shelf),
        Status::Limit if words.len() > 1 => complain_of_size(rt, words.at(1), words, shelf),
        Status::ShelfFault => complain_of_file(rt, shelf.unread()),
        Status::WriteFault if out.is_closed() => Ok(()),
        status => complain(rt, status),
    }
}

/// Writes to standard error the message that depends on the status alone, if there is one.
pub fn complain(rt: &HostRuntime, status: Status) -> io::Result<()> {
    match status {
        Status::ShelfFault => eprintln!(rt; "roman: a file couldn't be read"),
        Status::ReadFault => eprintln!(rt; "roman: the standard input couldn't be read"),
        Status::WriteFault => eprintln!(rt; "roman: the output couldn't be written"),
        Status::TooLong => eprintln!(rt;
            "roman: the session has more than 16,777,216 bytes, or the certificate more than 268,435,456"
        ),
        Status::Memory => eprintln!(rt; "roman: there isn't enough memory"),
        _ => Ok(()),
    }
}

/// Names the file that couldn't be read, and the cause.
fn complain_of_file(rt: &HostRuntime, unread: Option<&Unread>) -> io::Result<()> {
    let Some(unread) = unread else {
        return complain(rt, Status::ShelfFault);
    };
    let name = &unread.name;
    match unread.kind {
        ErrorKind::NotFound => eprintln!(rt; "roman: {name}: there is no such file"),
        ErrorKind::IsADirectory => eprintln!(rt; "roman: {name}: it is a folder"),
        kind => eprintln!(rt; "roman: {name}: it couldn't be read ({kind})"),
    }
}

/// Explains how to expand a document in the short form, which the program refuses.
fn complain_of_form(
    rt: &HostRuntime,
    name: &str,
    shelf: &mut FolderShelf<'_, HostRuntime>,
) -> io::Result<()> {
    if !is_short(rt.alloc(), name, shelf) {
        return Ok(());
    }
    eprintln!(rt;
        "roman: {name} is in the short form; roman-expand {name} -o plain.json writes the plain one"
    )
}

/// Returns whether the document can be read and states that it is in the short form.
fn is_short(alloc: Global, name: &str, shelf: &mut FolderShelf<'_, HostRuntime>) -> bool {
    let Ok(document) = document(alloc, shelf, name) else {
        return false;
    };
    let Ok(roman) = member(&document, "roman") else {
        return false;
    };
    match text(roman) {
        Ok(form) => form == "short",
        Err(_) => false,
    }
}

/// Writes how many cells the system has, and its limit. For a system within its limit, writes that
/// the advice requested by the words would have too many values.
fn complain_of_size(
    rt: &HostRuntime,
    system: &str,
    words: &Words,
    shelf: &mut FolderShelf<'_, HostRuntime>,
) -> io::Result<()> {
    let Ok(extent) = extent_of(rt.alloc(), system, shelf) else {
        return Ok(());
    };
    let limit = extent.limit;
    if is_within(&extent.sizes, limit) {
        return complain_of_values(rt, words);
    }
    match product(rt.alloc(), &extent.sizes) {
        Ok(cells) => eprintln!(rt; "roman: {cells} cells, limit {limit}"),
        Err(_) => Ok(()),
    }
}

/// Writes that advice for the requested number of requests would have too many values.
fn complain_of_values(rt: &HostRuntime, words: &Words) -> io::Result<()> {
    if words.len() < 4 {
        return Ok(());
    }
    let requests = words.at(3);
    eprintln!(rt; "roman: the related pairs times {requests} are more than 1,048,576 values")
}

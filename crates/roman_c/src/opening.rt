//! Begins a session of a document on a shelf.
ghost use Rattle.std.specs.Prelude.{◌≡◌};
ghost use Rattle.roman_io.specs.Faults.{Rose};
ghost use Rattle.roman_io.specs.Memory.{texts_of};
ghost use Rattle.roman_c.specs.Openings.{CanCount, HasBegun, opening_number};

use crate::shelf::TextShelf;
use crate::talk::{Reply, Talk};
use roman_io::Steps;
use roman_opening::{Status, open_session};
use std::alloc::Global;
use std::sync::ledger::{Blank, Ledger};

/// The result of opening a document: the new talk of the handle, and the status.
#[derive(Drop)]
pub(crate) struct Begun {
    pub(crate) talk: Talk,
    pub(crate) status: u32,
}

/// Opens a document, and begins a session of it. If that fails, the reply gives the reason.
pub(crate) fn begin<L: Ledger>(
    alloc: Global,
    shelf: &mut TextShelf,
    name: &str,
    blank: Blank,
) -> Begun
    requires { CanCount L.Ledger blank }
    ensures opens { HasBegun (texts_of shelf.old.files.items) name.now result }
    ensures missing { result.status ≡ 5 → Rose shelf.old.missing shelf.new.missing }
    ensures texts { texts_of shelf.new.files.items ≡ texts_of shelf.old.files.items }
{
    let mut reply = Reply::new(alloc);
    let mut steps = Steps::<L>::new(blank);
    match open_session(alloc, name, shelf, &mut reply, &mut steps) {
        Ok(session) => Begun {
            talk: Talk {
                session: Some(session),
                reply,
            },
            status: 0,
        },
        Err(status) => Begun {
            talk: Talk {
                session: None,
                reply,
            },
            status: opening_status(status),
        },
    }
}

/// Returns the number of a status without a session. If a line couldn't be written, it is the
/// number of out of memory.
fn opening_status(status: Status) -> u32
    ensures { result ≡ opening_number status }
{
    match status {
        Status::Refused => 3,
        Status::Limit => 4,
        Status::ShelfFault => 5,
        _ => 9,
    }
}

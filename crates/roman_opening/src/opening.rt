//! Opens the system document of a command.
ghost use Rattle.std.specs.Prelude.{◌≤◌, length, IfOk};
ghost use Rattle.roman_model.specs.declared.limits.TheConstants.{MAX_BEHAVIOURS};
ghost use Rattle.roman_library.specs.Library.{IsLibrary, plain};
ghost use Rattle.roman_start.specs.Seating.{IsSeated};
ghost use Rattle.roman_session.specs.Starts.{IsStart};
ghost use Rattle.roman_hearing.specs.Known.{AreBehaviours};
ghost use Rattle.roman_opening.specs.Endings.{IsRelated, IsOfSome, OpensFrom, ReadsLibrary};

use crate::limits::put_limit;
use crate::refusals::put_refusal;
use crate::status::{Status, finish};
use roman_io::{Shelf, Sink, Steps};
use roman_joint::JointError;
use roman_library::{Library, LoadError, load};
use roman_relation::Relation;
use roman_session::{BuildError, Session};
use roman_start::{Seated, seat_library};
use std::alloc::Global;
use std::sync::ledger::Ledger;

/// The greatest relation of a system, and its start pair.
#[derive(Drop)]
pub struct Related {
    /// The relation.
    pub relation: Relation,
    /// The number of the start pair.
    pub start: u32,
}

/// Loads the document `name`, and builds the joint of its system with the start pair. If that
/// fails, returns the status with which the run ends, and writes the line of a refusal or of an
/// exceeded limit.
pub fn open_system<F: Shelf, O: Sink>(
    alloc: Global,
    name: &str,
    shelf: &mut F,
    out: &mut O,
) -> Result<Seated, Status>
    ensures opens { OpensFrom F.Shelf O.Sink IsSeated name.now shelf.old out.old shelf.new out.new result }
    ensures seated { IfOk result (IsOfSome IsSeated) }
    ensures few { IfOk result (λ x. length x.joint.catalogue ≤ MAX_BEHAVIOURS) }
{
    let library = match read_library(alloc, name, shelf, out) {
        Ok(library) => library,
        Err(status) => return Err(status),
    };
    let limit = library.limit;
    match seat_library(alloc, library) {
        Ok(seated) => Ok(seated),
        Err(JointError::Limit) => Err(finish(put_limit(limit, out), Status::Limit)),
        Err(JointError::Memory) => Err(Status::Memory),
    }
}

/// Loads the document `name`, and builds the greatest relation of its system. If that fails,
/// returns the status with which the run ends, and writes the line of a refusal or of an exceeded
/// limit.
pub fn open_relation<F: Shelf, O: Sink, L: Ledger>(
    alloc: Global,
    name: &str,
    shelf: &mut F,
    out: &mut O,
    steps: &mut Steps<L>,
) -> Result<Related, Status>
    ensures opens { OpensFrom F.Shelf O.Sink IsRelated name.now shelf.old out.old shelf.new out.new result }
    ensures related { IfOk result (IsOfSome IsRelated) }
{
    let Seated { joint, start, .. } = match open_system(alloc, name, shelf, out) {
        Ok(seated) => seated,
        Err(status) => return Err(status),
    };
    match Relation::build(alloc, joint, steps) {
        Ok(relation) => Ok(Related { relation, start }),
        Err(_) => Err(Status::Memory),
    }
}

/// Loads the document `name`, and begins a session of its system. If that fails, returns the status
/// with which the run ends, and writes the line of a refusal or of an exceeded limit.
pub fn open_session<F: Shelf, O: Sink, L: Ledger>(
    alloc: Global,
    name: &str,
    shelf: &mut F,
    out: &mut O,
    steps: &mut Steps<L>,
) -> Result<Session, Status>
    ensures opens { OpensFrom F.Shelf O.Sink IsStart name.now shelf.old out.old shelf.new out.new result }
    ensures behaviours { IfOk result (λ session. AreBehaviours session.parts) }
{
    let library = match read_library(alloc, name, shelf, out) {
        Ok(library) => library,
        Err(status) => return Err(status),
    };
    let limit = library.limit;
    match Session::build(alloc, library, steps) {
        Ok(session) => Ok(session),
        Err(BuildError::Limit) => Err(finish(put_limit(limit, out), Status::Limit)),
        Err(BuildError::Memory) => Err(Status::Memory),
    }
}

/// Loads the library of the document `name`. If that fails, returns the status with which the run
/// ends, and writes the line of a refusal.
fn read_library<F: Shelf, O: Sink>(
    alloc: Global,
    name: &str,
    shelf: &mut F,
    out: &mut O,
) -> Result<Library, Status>
    ensures reads { ReadsLibrary F.Shelf O.Sink name.now shelf.old out.old shelf.new out.new result }
    ensures library { IfOk result (λ library. IsLibrary (plain library)) }
{
    match load(alloc, shelf, name) {
        Ok(library) => Ok(library),
        Err(LoadError::Fault) => Err(Status::ShelfFault),
        Err(LoadError::Refused(refusal)) => {
            Err(finish(put_refusal(&refusal, out), Status::Refused))
        }
        Err(LoadError::Memory) => Err(Status::Memory),
    }
}

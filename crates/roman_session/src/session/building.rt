//! Begins a session.
ghost use Rattle.std.specs.Prelude.{IfOk};
ghost use Rattle.roman_library.specs.Library.{IsLibrary, plain};
ghost use Rattle.roman_start.specs.Starts.{parts_of};
ghost use Rattle.roman_session.specs.Starts.{IsStart};
ghost use Rattle.roman_start.specs.Seating.{IsWithinLimit};

use super::Session;
use crate::phase::Phase;
use roman_io::Steps;
use roman_joint::JointError;
use roman_library::Library;
use roman_relation::Relation;
use roman_rules::SeatSet;
use roman_start::{Seated, seat_library};
use std::alloc::Global;
use std::sync::ledger::Ledger;

impl Session {
    /// Begins a session of a library, in its starting states. No other call of a session allocates.
    ///
    /// Fails with `Limit` exactly when the system has more cells (pairs times actions) than the
    /// library's limit. Fails with `Memory` only when out of memory.
    pub fn build<L: Ledger>(
        alloc: Global,
        library: Library,
        steps: &mut Steps<L>,
    ) -> Result<Session, JointError>
        requires { IsLibrary (plain library) }
        ensures start { IfOk result (IsStart (plain library)) }
        ensures limit { IsWithinLimit (parts_of (plain library)) result }
    {
        let Seated {
            joint,
            states,
            start,
        } = seat_library(alloc, library)?;
        let target = joint.target().start();
        let env = joint.environment().start();
        joint.known(); // the system is well formed
        let relation = Relation::build(alloc, joint, steps)?;
        Ok(Session {
            relation,
            target,
            env,
            states,
            number: start,
            phase: Phase::Idle,
            mask: SeatSet::EMPTY,
        })
    }
}

//! The tables of a joint, which are allocated once.
ghost use Rattle.std.specs.Prelude.{IfOk};
ghost use Rattle.roman_joint.specs.NamedSys.{TargetIsOverEnv};
ghost use Rattle.roman_joint.specs.Moves.{AreSeatsIn};
ghost use Rattle.roman_joint.specs.Layout.{AreTables};

use crate::layout::{Layout, layout_of};
use crate::moves::{Moves, moves_of};
use crate::seat::{Parts, Seat};
use crate::seats::copy_seats;
use crate::target_view::{TargetView, all_target_views};
use roman_radix::Shape;
use std::alloc::{AllocError, Global};

/// The tables of a joint.
#[derive(Drop)]
pub(crate) struct Tables {
    /// The services, with room for the greatest number of them.
    pub(crate) places: Vec<Seat>,
    pub(crate) target_views: Vec<TargetView>,
    pub(crate) rows: Layout,
    pub(crate) moves: Moves,
}

/// Makes the tables of these parts, whose pairs have the given shape. Fails only when out of memory.
pub(crate) fn tables_of(
    alloc: Global,
    parts: &Parts<'_>,
    shape: &Shape,
) -> Result<Tables, AllocError>
    requires target { TargetIsOverEnv parts.now.environment.now parts.now.target.now }
    requires seats { AreSeatsIn parts.now shape.now }
    ensures { IfOk result (AreTables parts.now shape.now) }
{
    let rows = layout_of(shape);
    let target_views = all_target_views(alloc, parts.environment, parts.target)?;
    let moves = moves_of(alloc, parts, shape, &rows)?;
    let places = copy_seats(alloc, parts.seats)?;
    Ok(Tables {
        places,
        target_views,
        rows,
        moves,
    })
}

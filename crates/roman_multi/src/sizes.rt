//! The numbers of states of the targets.
ghost use Rattle.std.specs.Prelude.{◌≡◌, All, OnOk};
ghost use Rattle.roman_model.specs.Combined.{target_sizes};
ghost use Rattle.roman_parts.specs.Named.{IsTarget};
ghost use Rattle.roman_multi.specs.Combining.{machines};
ghost use Rattle.roman_multi.specs.Lists.{ReturnsList};
ghost use Rattle.roman_multi.specs.Merges.{AreTargetsOf};

use crate::parts::Named;
use roman_parts::Environment;
use std::alloc::{AllocError, Global};

/// Returns the number of states of each target.
#[tactic(auto, using(crate::proofs::KnownLemmas::over_states))]
pub(crate) fn sizes_of(
    alloc: Global,
    env: &Environment,
    targets: &[Named],
) -> Result<Vec<u8>, AllocError>
    requires { AreTargetsOf env.now targets.now }
    ensures sizes { ReturnsList result (target_sizes (machines targets.now)) }
    ensures known { OnOk result (All (λ named. IsTarget env.now named.target) targets.now) }
{
    let mut sizes = Vec::with_capacity(alloc, targets.len())?;
    for i in 0..targets.len() {
        sizes.push(targets[i].target.states().len() as u8)?;
    }
    Ok(sizes)
}

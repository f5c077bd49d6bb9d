//! Counts the pairs of each depth.
ghost use Rattle.std.specs.Prelude.{◌-◌, ◌^◌, ◌<◌, length, slice_index, IfOk, OnOk};
ghost use Rattle.roman_rank.specs.Ranking.{AreCounts, HasOneMore};

use std::alloc::{AllocError, Global};

/// Returns how often each depth occurs in the table, up to the greatest depth. Skips `u32::MAX`. Fails
/// only when out of memory.
pub(crate) fn counts_of(alloc: Global, depths: &[u32]) -> Result<Vec<u32>, AllocError>
    requires { length depths.now < 2 ^ 32 - 1 }
    ensures { IfOk result (λ counts. AreCounts depths.now counts.items) }
{
    let mut counts = Vec::new(alloc);
    for depth in depths {
        if *depth != u32::MAX {
            count_one(&mut counts, *depth)?;
        }
    }
    Ok(counts)
}

/// Adds one to the count of a depth. Fails only when out of memory.
fn count_one(counts: &mut Vec<u32>, depth: u32) -> Result<(), AllocError>
    requires depth { depth < 2 ^ 32 - 1 }
    requires few { slice_index counts.old.items depth < 2 ^ 32 - 1 }
    ensures { OnOk result (HasOneMore depth counts.old.items counts.new.items) }
{
    let n = depth as usize;
    if n >= counts.len() {
        counts.resize(n + 1, 0)?;
    }
    counts[n] += 1;
    Ok(())
}

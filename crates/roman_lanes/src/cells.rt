//! Counting equal numbers.
ghost use Rattle.std.specs.Prelude.{◌≡◌, ◌≤◌, length, count_by, ◌==◌};

use crate::block::{LANES, equal_in};

/// Returns how many of the numbers are equal to `value`. The slice may have any length, including
/// 0. Counts in one pass, sixteen numbers at a time.
pub fn count_equal(values: &[u32], value: u32) -> usize
    ensures counted { result ≡ count_by (λ x. x == value) values.now }
{
    let blocks = values.len() / LANES;
    let mut count = 0;
    for block in 0..blocks {
        count += equal_in(values, block * LANES, value) as usize;
    }
    count + equal_cells(&values[blocks * LANES..], value)
}

/// Counts the numbers that are equal to `value`, by a plain loop. [`count_equal`] uses it for the
/// numbers after the last whole block.
fn equal_cells(values: &[u32], value: u32) -> usize
    ensures counted { result ≡ count_by (λ x. x == value) values.now }
    ensures bound { result ≤ length values.now }
{
    values.iter().filter(|x| **x == value).count()
}

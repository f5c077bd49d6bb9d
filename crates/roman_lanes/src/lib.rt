//! Kernels over large slices of words and numbers, and the definitions that read words as rows of
//! flags.
//!
//! Each kernel processes the slice in blocks, by `std::simd`, and then the rest one by one. The
//! contracts state the result of a plain loop. No call takes memory.
#![tactic(auto)]

mod block;
mod cells;
mod combine;
mod search;
#[cfg(test)]
mod tests;
mod update;

pub use block::load;
pub use cells::count_equal;
pub use combine::{Taking, both, less, without};
pub use search::first_set;
pub use update::{Update, UpdateOf, update_each};

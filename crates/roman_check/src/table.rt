//! Tables with a bit for each pair.
ghost use Rattle.std.specs.Prelude.{◌<◌, ◌≤◌};

/// The pairs that no entry names yet: a bit for each pair, and the number of set bits.
#[derive(Drop)]
pub(crate) struct Remaining {
    // the number of pairs in a row
    pub(crate) lanes: u32,
    pub(crate) words: Vec<u64>,
    pub(crate) count: u32,
    ghost some: { 0 < lanes },
    ghost few: { lanes ≤ 64 },
}

//! The stages of the summary of `make`.
ghost use Rattle.std.specs.Prelude.{◌≤◌, length};

/// The figures of a session at its start, or after some lines of its script.
#[derive(Clone, Copy)]
pub(crate) struct MakeStage {
    /// The word of the stage: `start`, the first word of the last line, or `round` at the end.
    pub(crate) word: &'static [u8],
    /// The number of pairs.
    pub(crate) pairs: u32,
    /// The number of related pairs.
    pub(crate) related: u32,
    /// Whether the current pair is related.
    pub(crate) composes: bool,
    ghost short: { length word.now ≤ 16 },
}

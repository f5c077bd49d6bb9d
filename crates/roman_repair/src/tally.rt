//! Counts the entries that a repair kept and added.

/// The number of entries of the renamed removal list that a repair kept, and the number of entries
/// that it added: the numbers of the reply `kept K added N`.
#[derive(Clone, Copy, Debug, PartialEq, Eq)]
pub struct Tally {
    /// The length of the replay of the renamed old list. The new list begins with this replay.
    pub kept: u32,
    /// The number of entries that the new list has after the replay.
    pub added: u32,
}

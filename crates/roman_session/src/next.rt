//! Whether a session takes more lines.

/// Whether a session takes more lines after the one that it answered.
#[derive(Clone, Copy, Debug, PartialEq, Eq)]
pub enum Next {
    /// The session takes more lines.
    More,
    /// The session has ended.
    Quit,
}

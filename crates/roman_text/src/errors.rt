//! Errors of session lines.
ghost use Rattle.std.specs.Prelude.{◌≡◌};
ghost use Rattle.roman_text.specs.Shapes.{line_error_number};

use thiserror::Error;

/// The reason why a session line isn't an event. The session replies `error line` to both.
#[derive(Clone, Copy, Debug, PartialEq, Eq, Error)]
pub enum LineError {
    /// The words aren't those of any event.
    #[error("the line is no event")]
    Form,
    /// The line has more than 256 bytes.
    #[error("the line is too long")]
    TooLong,
}

impl LineError {
    /// Returns the number of the error: 1 for `Form` and 2 for `TooLong`.
    pub fn number(&self) -> u8
        ensures number { result ≡ line_error_number self.now }
    {
        match self {
            LineError::Form => 1,
            LineError::TooLong => 2,
        }
    }
}

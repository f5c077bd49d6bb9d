//! Session lines, replies and report lines as bytes.
//!
//! [`split_line`] finds the lines of a stream of bytes, and a [`Splitter`] holds a line that comes
//! in several pieces. [`parse_line`] parses a line into an event. [`put_reply`] and
//! [`put_report_line`] write a line to a sink at once, and a [`Page`] gathers many of them. A
//! [`Piece`] is a short text built from words, names and numbers. No call allocates memory.
#![tactic(auto)]

mod errors;
mod events;
mod laws;
mod lines;
mod page;
mod parsing;
mod piece;
mod replies;
mod report;
#[cfg(test)]
mod tests;
mod words;
mod writing;

pub use errors::LineError;
pub use events::Event;
pub use laws::{keep_shapes, spell_events, split_lines};
pub use lines::{Splitter, split_line};
pub use page::{Page, SHORT};
pub use parsing::parse_line;
pub use piece::Piece;
pub use replies::Reply;
pub use report::ReportLine;
pub use writing::{put_reply, put_report_line};

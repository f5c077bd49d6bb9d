//! The interface of the engine to the outside as traits, with objects in memory that implement them.
//!
//! A [`Shelf`] has texts by name, a [`Source`] gives bytes, and a [`Sink`] takes bytes. Each object
//! counts its faults. The count rises exactly in the calls that return [`Failed`], until it reaches
//! `u64::MAX`. Contracts can state the content of an object only if its type exposes it. The
//! objects in memory expose theirs, and adapters to a file or a terminal can't. [`Words`] has the
//! words of a command. [`Steps`] counts work, for contracts alone. `specs/` defines the effect of
//! each call.
#![tactic(auto)]

mod calls;
mod copying;
mod endless_source;
mod failed;
mod mem_shelf;
mod mem_sink;
mod mem_source;
mod quiet_shelf;
mod quiet_source;
mod shelf;
mod shelf_source;
mod sink;
mod source;
mod steps;
#[cfg(test)]
mod tests;
mod waste;
mod words;

pub use endless_source::EndlessSource;
pub use failed::Failed;
pub use mem_shelf::MemShelf;
pub use mem_sink::MemSink;
pub use mem_source::MemSource;
pub use quiet_shelf::QuietShelf;
pub use quiet_source::QuietSource;
pub use shelf::Shelf;
pub use shelf_source::ShelfSource;
pub use sink::Sink;
pub use source::Source;
pub use steps::Steps;
pub use waste::Waste;
pub use words::Words;

//! System documents on a shelf.
//!
//! [`document`] fetches a text from a shelf and parses it as JSON. [`load`] reads a system document
//! with the part files that it names. It returns the [`Library`] that the document means, or the
//! [`Refusal`] with the first rule that it breaks. `specs/Documents` defines the meaning of a
//! document, and `specs/Library` the properties of every library.
#![tactic(auto)]

mod catalogue;
mod file_name;
mod header;
mod laws;
mod library;
mod listing;
mod loading;
mod locating;
mod names;
mod part_file;
mod parts;
mod refusal;
mod services;
mod targets;
mod text;

pub use file_name::FileName;
pub use laws::{libraries_are_known, targets_are_combined};
pub use library::{Library, Service};
pub use loading::load;
pub use names::place_of_behaviour;
pub use refusal::{LoadError, Part, Refusal};
pub use text::{DocError, document};

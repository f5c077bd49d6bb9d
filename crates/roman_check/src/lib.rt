//! A checker of certificates from any author.
//!
//! [`check`] reads a certificate line by line from a source, and returns the verdict on it. It trusts
//! only the transitions of the system: the earlier entries must justify each entry, and at the end no
//! pair may be missing.
#![tactic(auto)]

mod audit;
mod certificate;
mod entries;
mod error;
mod line;
mod missing;
mod numbers;
mod pattern;
mod reader;
mod remaining;
mod table;
mod verdict;

pub use certificate::check;
pub use error::CheckError;
pub use verdict::{Verdict, Why};

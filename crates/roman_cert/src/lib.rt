//! Writers of certificates and of explanations.
//!
//! [`write_order`] writes the certificate of a relation: its removal list. A checker needs only the
//! transitions of the system to check that the list is complete. [`write_slice`] explains why a
//! pair isn't related: it writes the part of the list on which the pair's entry depends. No call
//! allocates memory.
#![tactic(auto)]

mod answers;
mod certificate;
mod lines;
mod marking;
mod slice;
mod template;
#[cfg(test)]
mod tests;

pub use certificate::write_order;
pub use slice::write_slice;

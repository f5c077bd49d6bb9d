//! Names, and the members of JSON values in a system document.
//!
//! A [`Name`] is a short word that is stored in place. A [`NameTable`] numbers names in the order
//! in which they were added. [`parse`] reads a text. [`member`], [`text`], [`list`], [`number`] and
//! [`truth`] read its value, and return the broken rule if they fail. [`Kind`] names all rules of a
//! document. `specs/Names` defines names, and `specs/Json` the content of values.
#![tactic(auto)]

mod looks;
mod name;
mod rules;
mod table;
mod texts;

pub use looks::{list, member, number, text, truth};
pub use name::Name;
pub use rules::{Kind, Miss};
pub use table::{AddError, NameTable};
pub use texts::{ParseError, parse};

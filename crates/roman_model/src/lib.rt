//! The definitions of behaviour composition in the Roman model, and the laws over them alone that
//! proofs of other crates need. The model is that of De Giacomo, Patrizi and Sardina, "Automatic
//! Behavior Composition Synthesis" (Artificial Intelligence 196, 2013).
//!
//! `specs/` has the definitions. `System` has environments, behaviours, systems, pairs and their
//! steps, and `Outcomes` the steps of target and system together. `Made` has records built from tests
//! of their steps, and `Normal` the normal forms of records. `Composition` has ND-simulations and the
//! greatest one, and `Offers` the orchestrator generator. `Arena` has removal lists, masks and depths
//! over any set of nodes, `SystemArena` a system as such a set, and `CompleteLists` complete removal
//! lists. `Numbers` has the numbers of pairs. `Change` has removal lists after a change of the
//! services, and `NumberedChange` the same over numbers. `Play` has the opponent's game. `Certificate`
//! has the text of a certificate, and `Explanation` that of an explanation. `Plans` has the worst-case
//! costs of delegations, and `Without` systems that lack some of their seats. `Several` has the
//! simulations of several targets, and `Combined` the one system that combines them. `Lists` and
//! `Lines` have definitions on lists, numbers and texts. `Laws` has the laws on settled removal lists.
//! Each law is the contract of a function with an empty body. Laws that only readers need are in
//! `roman_laws`.
#![tactic(auto)]

mod certificates;
mod laws;
mod limits;
mod reason;
mod request;
mod way;

pub use certificates::{explanation_is_least, greatest_is_complete, written_is_greatest};
pub use laws::{
    depth_is_least, depth_wins, numbered_completes, offers_are_generator, order_completes,
    order_wins, plans_cost_least, renaming_keeps, without_by_changes,
};
pub use limits::{
    DEFAULT_CELLS, MAX_ACTIONS, MAX_BEHAVIOURS, MAX_CELLS, MAX_CERTIFICATE_BYTES,
    MAX_DOCUMENT_BYTES, MAX_FILE_NAME_BYTES, MAX_LINE_BYTES, MAX_NAME_BYTES, MAX_SERVICES,
    MAX_SESSION_BYTES, MAX_STATES, MAX_STEPS, PIECE_BYTES, PLACES,
};
pub use reason::Reason;
pub use request::Request;
pub use way::Way;

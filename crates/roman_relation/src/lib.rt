//! The greatest ND-simulation of a system, by a removal list and rounds over bands of rows of pairs.
//!
//! A [`Relation`] has a joint and its removal list: the pairs that the greatest ND-simulation
//! doesn't hold, in an order in which each is justified by those before it. The other functions
//! work over any system with numbered pairs ([`Rules`](roman_rules::Rules)). [`settle_list`] makes
//! a removal list complete. It first lists the pairs that don't meet clause 2 ([`begin_rounds`]),
//! and then plays rounds: [`play_round`] lists each pair at which some allowed action is served by
//! no seat. A seat serves an action if it has an outcome there, and only outcomes that weren't
//! listed before the round. So n rounds on an empty list make a list of exactly the pairs at which
//! the opponent wins within n requests. The first round judges all bands. Each later round judges
//! the bands that the round before it marked.
//!
//! The definitions are in `specs/`: `Settled` defines settled lists, `Rounds` the conditions
//! between rounds and within one, and `Greatest` complete relations.
#![tactic(auto)]

mod masks;
mod relation;
mod rounds;

pub use relation::Relation;
pub use rounds::{begin_rounds, play_round, settle_list};

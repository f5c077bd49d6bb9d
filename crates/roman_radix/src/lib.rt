//! The numbers of pairs. Every pair of a system has a number, and these numbers are exactly those
//! below the number of pairs.
//!
//! A pair is a state of the target, a state of the environment and a state of each component. Its
//! number is written in a mixed radix system: the target's state is the most significant digit, then
//! comes the environment's, and the last component's is the least significant. A [`Shape`] holds the
//! sizes, counts the pairs, and computes with their numbers. It takes no memory.
#![tactic(auto)]

mod shape;

pub use shape::Shape;

//! Rows of pairs.

use roman_model::PLACES;

/// The facts of a row that are looked up once: plain data, valid for the joint that made it until its
/// services change. At all pairs of a row the target, the environment and each service before the
/// lanes have the same state.
#[derive(Clone, Copy, Debug)]
pub struct Row {
    // The row's place among the rows with its states of the target and the environment.
    pub(crate) part: u32,
    // The actions that are allowed there, and the actions that can lead there.
    pub(crate) allowed: u32,
    pub(crate) leading: u32,
    // The states of the target, the environment, and the services before the lanes.
    pub(crate) target: u8,
    pub(crate) env: u8,
    pub(crate) states: [u8; PLACES],
}

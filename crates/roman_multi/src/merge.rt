//! The targets that are combined, with their numbers of states and their actions.

use crate::parts::Named;
use roman_model::Request;
use roman_parts::Environment;
use roman_radix::Shape;

/// Several targets over an environment, the numbers of their combined states, and their combined
/// actions.
#[derive(Clone, Copy)]
pub(crate) struct Merge<'a> {
    pub(crate) env: &'a Environment,
    pub(crate) targets: &'a [Named],
    // the numbers of the lists of one state for each target
    pub(crate) shape: &'a Shape,
    // the combined actions
    pub(crate) requests: &'a [Request],
}

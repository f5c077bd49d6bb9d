//! The inputs and results of a combination.

use roman_parts::{Behaviour, Environment, Target};
use roman_read::Name;

/// A target with its name in the document.
#[derive(Drop)]
pub struct Named {
    /// The name of the target. It follows a dash in the names of the combined actions.
    pub name: Name,
    /// The target.
    pub target: Target,
}

/// Several targets as one, with the environment and the behaviours over its actions.
#[derive(Drop)]
pub struct Combined {
    /// The environment, whose actions name the targets that request them.
    pub environment: Environment,
    /// The behaviours, in the order of the given ones.
    pub catalogue: Vec<Behaviour>,
    /// The combined target.
    pub target: Target,
}

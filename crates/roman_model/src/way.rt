//! The ways in which a service fails.

/// The way in which a service fails.
#[derive(Clone, Copy, Debug, PartialEq, Eq)]
pub enum Way {
    /// The service stays in its state. It can't serve, and its state still counts.
    Freeze,
    /// The service leaves, and its state leaves with it.
    Die,
}

//! Walks backwards from a pair.

/// The position of a walk backwards from a pair. The walk goes through the delegations that can lead
/// to the pair, by action, then by the predecessor states of the environment and of the target, by the
/// service, and by its predecessor state. A predecessor state is one from which a step leads to the
/// pair's state.
#[derive(Clone, Copy, Debug)]
pub struct Walk {
    // The pair to which the delegations lead.
    pub(crate) pair: u32,
    // The current action, and how many of the environment's predecessor states were taken on it.
    pub(crate) action: u8,
    pub(crate) envs_taken: u8,
    // The environment's state taken last, and how many of the target's predecessor states were taken
    // there.
    pub(crate) env: u8,
    pub(crate) targets_taken: u8,
    // The target's state taken last.
    pub(crate) target: u8,
    // The current service, and how many of its predecessor states were taken.
    pub(crate) seat: u8,
    pub(crate) states_taken: u8,
}

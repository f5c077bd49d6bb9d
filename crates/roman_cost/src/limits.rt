//! Defines the limits of costs and advice.

/// The greatest number of items of a text of costs.
pub const MAX_COSTS: u32 = 1_024;

/// The greatest cost of an item.
pub const MAX_COST: u32 = 1_000_000;

/// The greatest number of requests for which advice is given.
pub const MAX_REQUESTS: u8 = 64;

/// The greatest number of values of advice: related pairs times requests.
pub const MAX_VALUES: u32 = 1_048_576;

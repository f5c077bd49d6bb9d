//! Runs of the one call over objects in memory: each command once, and faults of the shelf, the
//! input and the output. `tests/examples` has the worked examples, which the built program runs.
#![tactic(auto)]

#[cfg(test)]
mod faults;
#[cfg(test)]
mod runs;

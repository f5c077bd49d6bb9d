//! Reads sessions line by line from a source, and states the laws that hold of every session, for
//! any input.
//!
//! `specs/Hearing` defines which lines of a stream are answered and which replies are written.
//! `specs/Told` defines the replies to a list of lines, by the steps of `roman_session`. The laws
//! state that each step from a well-formed situation leads to a well-formed one (`specs/Known`),
//! and that each step is a turn of `roman_session`: it leads to the state of the line's event, and
//! its text is right for that event, in terms of the greatest ND-simulation, steps and names.
#![tactic(auto)]

mod hearing;
mod laws;

pub use hearing::{HearError, hear};
pub use laws::{
    lines_are_read, open_is_great, outcomes_are_related, reports_are_afresh, reports_are_fixed,
    requests_are_offered, services_not_offered_fail, several_are_served, steps_are_turns,
    steps_stay_known,
};

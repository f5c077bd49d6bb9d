//! The program as one call. [`serve`] takes the words of a command, runs the command over a shelf,
//! an input and an output, and returns a [`Status`]. `specs/Run` defines the text and the status of
//! a run. `specs/Headline` states what a session promises, by the greatest ND-simulation alone.
#![tactic(auto)]

mod advise;
mod certify;
mod check;
mod check_text;
mod command;
mod make;
mod make_stage;
mod make_text;
mod requests;
mod resilience;
mod resilience_text;
mod run;
mod serving;
mod shortest;
mod starts;
mod synth;
mod workers;

pub use check::check_certificate;
pub use roman_opening::Status;
pub use serving::serve;
pub use starts::starts_are_known;
pub use synth::synth_report;

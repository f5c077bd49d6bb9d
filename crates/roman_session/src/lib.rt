//! Sessions. Each line is an event, and the session writes the reply to it.
//!
//! A session holds the services now present with the greatest relation of their system, the present
//! states of the target, the environment and the services, and the open request. Contracts see a
//! session as a situation, and an answer as one step from a situation to the next. A step is a turn
//! of the session's state (`specs/Turns`) and a change of its removal list (`specs/Steps`).
#![tactic(auto)]

mod events;
mod next;
mod phase;
mod session;

pub use next::Next;
pub use phase::Phase;
pub use roman_joint::JointError as BuildError;
pub use session::Session;

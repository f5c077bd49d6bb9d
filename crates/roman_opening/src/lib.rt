//! Opens the system document of a command: loads its library from a shelf, and builds the joint of
//! its system, the greatest relation or a session. If that fails, writes the line that reports it,
//! and returns the status with which the run ends.
#![tactic(auto)]

mod limits;
mod opening;
mod refusals;
mod status;

pub use limits::put_limit;
pub use opening::{Related, open_relation, open_session, open_system};
pub use refusals::put_refusal;
pub use status::{Status, finish};

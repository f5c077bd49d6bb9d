//! The error of shelves, sources and sinks.
use std::error::Error;
use std::fmt;

/// The error of a call to a shelf, a source or a sink. The call counted a fault.
#[derive(Clone, Copy, Debug, PartialEq, Eq)]
pub struct Failed;

impl fmt::Display for Failed {
    fn fmt<W: fmt::Write>(&self, f: &mut fmt::Formatter<W>) -> fmt::Result {
        f.write_str("an object of the outside failed")
    }
}

impl Error for Failed {}

//! Verdicts on certificates, and the faults of lines.
ghost use Rattle.std.specs.Prelude.{◌≡◌};
ghost use Rattle.roman_check.specs.Verdicts.{why_number};

/// The verdict on a certificate, exactly as the certificate format gives it.
#[derive(Clone, Copy, Debug, PartialEq, Eq)]
pub enum Verdict {
    /// The certificate is accepted: it was read to its end, and its list is complete.
    Greatest {
        /// The number of related pairs: those that aren't listed.
        related: u32,
        /// Whether the start pair is related.
        start: bool,
    },
    /// The certificate is rejected: a line is at fault, and none before it.
    Rejected {
        /// The number of the line at fault, from 1.
        line: u32,
        /// The fault of the line.
        why: Why,
    },
}

/// The fault of a line of a certificate.
#[derive(Clone, Copy, Debug, PartialEq, Eq)]
pub enum Why {
    /// The line isn't the one that is due, or is missing.
    Form,
    /// An earlier line names the pair of the entry.
    Repeated,
    /// The earlier entries don't justify the entry: its reason doesn't hold with their pairs removed.
    Unjustified,
    /// The list isn't complete. The value is the least pair that isn't listed and at which a reason
    /// holds.
    Unlisted(u32),
}

impl Why {
    /// Returns the number of the fault, from 1 to 4 in the order of the variants.
    pub fn number(&self) -> u8
        ensures number { result ≡ why_number self.now }
    {
        match self {
            Why::Form => 1,
            Why::Repeated => 2,
            Why::Unjustified => 3,
            Why::Unlisted(_) => 4,
        }
    }
}

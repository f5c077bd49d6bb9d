//! The statuses with which a run ends.
ghost use Rattle.std.specs.Prelude.{◌≡◌};
ghost use Rattle.roman_opening.specs.Numbers.{status_number};
ghost use Rattle.roman_opening.specs.Endings.{Finishes};

use roman_io::Failed;

/// The status of a run. The variants are in the order of their exit statuses, from 0 to 9.
#[derive(Clone, Copy, Debug, PartialEq, Eq)]
pub enum Status {
    /// 0: The whole text of the command was written. For `synth` and `advise` the start pair is
    /// related. For `check` the certificate is valid and complete. For `run` the session was read
    /// to its end or to its line `quit`.
    Done,
    /// 1: The start pair isn't related, and the report (`synth`) or the line `answer none`
    /// (`advise`) was written. Or the certificate is rejected, and the line that reports this was
    /// written (`check`).
    No,
    /// 2: The words form no command. The usage line was written, and nothing was read.
    Usage,
    /// 3: The document or the text of costs is refused. The line of the first rule that it breaks
    /// was written.
    Refused,
    /// 4: The cells of the system exceed the document's limit. Or the values of `advise`, related
    /// pairs times H, exceed 1,048,576. The line `limit` with that limit was written.
    Limit,
    /// 5: A call of the shelf failed, and its count of faults rose. Never returned for `make` or
    /// for words that form no command. For a session on the shelf the replies to all lines that
    /// were read whole were written. Otherwise nothing was written. Nothing was taken from the
    /// input.
    ShelfFault,
    /// 6: A take from the input failed, and its count of faults rose. Returned for `run SYSTEM`
    /// alone. The replies to all lines that were taken whole were written.
    ReadFault,
    /// 7: A put into the sink failed, and its count of faults rose. A prefix of the text was
    /// written.
    WriteFault,
    /// 8: The session has more than 16,777,216 bytes before a line `quit` ends. The replies to the
    /// lines that end within these bytes were written. Or the certificate has more than 268,435,456
    /// bytes before a line at fault ends, and nothing was written.
    TooLong,
    /// 9: Out of memory. Never returned for words that form no command. Nothing was written, and
    /// nothing was taken from the input.
    Memory,
}

impl Status {
    /// Returns the exit status of the program, from 0 to 9 in the order of the variants.
    pub fn number(&self) -> u8
        ensures number { result ≡ status_number self.now }
    {
        match self {
            Status::Done => 0,
            Status::No => 1,
            Status::Usage => 2,
            Status::Refused => 3,
            Status::Limit => 4,
            Status::ShelfFault => 5,
            Status::ReadFault => 6,
            Status::WriteFault => 7,
            Status::TooLong => 8,
            Status::Memory => 9,
        }
    }
}

/// Returns `status` if the text was put, and `WriteFault` if the sink failed.
pub fn finish(put: Result<(), Failed>, status: Status) -> Status
    ensures { Finishes put status result }
{
    match put {
        Ok(()) => status,
        Err(_) => Status::WriteFault,
    }
}

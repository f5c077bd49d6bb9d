//! Lines of a report, and their bytes.
ghost use Rattle.std.specs.Prelude.{◌≡◌, ◌+◌, ◌≤◌, length, if◌then◌else◌};
ghost use Rattle.roman_text.specs.Report.{line_text};

use crate::piece::Piece;
use roman_read::Name;

/// A whole line of a report, or a part of one: `Offer`, `Serves` and `Stop` together make the line
/// that lists services.
#[derive(Clone, Copy, Debug, PartialEq, Eq)]
pub enum ReportLine {
    /// The number of pairs of the system.
    Pairs(u32),
    /// The number of related pairs.
    Related(u32),
    /// The present environment state.
    Environment(Name),
    /// The present target state.
    Target {
        /// The state.
        state: Name,
        /// Whether the state is final.
        is_final: bool,
    },
    /// A service.
    Service {
        /// The service's name.
        name: Name,
        /// The name of the service's behaviour.
        behaviour: Name,
        /// The service's present state.
        state: Name,
        /// Whether the service is frozen: it takes no delegations.
        frozen: bool,
        /// Whether the service never needs to be in a final state.
        loose: bool,
    },
    /// Whether a composition exists from the present pair.
    Answer(bool),
    /// The beginning of the line that lists the services offered for an action. The value is the
    /// action.
    Offer(Name),
    /// A space and the name of a service that is offered.
    Serves(Name),
    /// The end of the line that lists services.
    Stop,
    /// The last line.
    End,
}

/// Returns the bytes of a report line with its newline, or of a part of a line.
pub fn report_piece(line: &ReportLine) -> Piece
    ensures { result ≡ line_text line.now }
{
    let text = Piece::new();
    match line {
        ReportLine::Pairs(n) => text.text(b"pairs ").number(*n).text(b"\n"),
        ReportLine::Related(n) => text.text(b"related ").number(*n).text(b"\n"),
        ReportLine::Environment(state) => text.text(b"environment ").name(state).text(b"\n"),
        ReportLine::Target { state, is_final } => {
            let text = text.text(b"target ").name(state);
            text.text(either(*is_final, b" final\n", b" running\n"))
        }
        ReportLine::Answer(composes) => {
            let answer = either(*composes, b"composition\n", b"none\n");
            text.text(b"answer ").text(answer)
        }
        ReportLine::Offer(action) => text.text(b"offer ").name(action).text(b":"),
        ReportLine::Serves(service) => text.text(b" ").name(service),
        ReportLine::Stop => text.text(b"\n"),
        ReportLine::End => text.text(b"end\n"),
        ReportLine::Service {
            name,
            behaviour,
            state,
            frozen,
            loose,
        } => {
            let text = text.text(b"service ").name(name).text(b" ").name(behaviour);
            let text = text.text(b" ").name(state);
            let text = text.text(either(*frozen, b" frozen", b" ready"));
            text.text(either(*loose, b" loose\n", b"\n"))
        }
    }
}

/// Returns the first text if the test is true, and the second otherwise.
fn either(test: bool, yes: &'static [u8], no: &'static [u8]) -> &'static [u8]
    ensures text { result.now ≡ (if test then yes.now else no.now) }
    ensures short { length result.now ≤ length yes.now + length no.now }
{
    if test { yes } else { no }
}

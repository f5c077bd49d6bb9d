//! The commands, and the words that form them.
ghost use Rattle.std.specs.Prelude.{◌≡◌};
ghost use Rattle.std.specs.Option.{option_map};

use crate::requests::{Requests, requests_of};
use crate::workers::{Workers, workers_of};
use roman_io::Words;

/// A command with its arguments.
#[derive(Clone, Copy)]
pub(crate) enum Command<'a> {
    /// `synth SYSTEM`: the report on the starting states.
    Synth(&'a str),
    /// `run SYSTEM`: a session that is read from the input.
    Run(&'a str),
    /// `run SYSTEM SESSION`: a session that is read from the shelf.
    RunOnShelf {
        /// The system's name.
        system: &'a str,
        /// The session's name.
        session: &'a str,
    },
    /// `certify SYSTEM`: the certificate of the system.
    Certify(&'a str),
    /// `check SYSTEM CERT`: the verdict on a certificate on the shelf.
    Check {
        /// The system's name.
        system: &'a str,
        /// The certificate's name.
        certificate: &'a str,
    },
    /// `shortest SYSTEM`: the number of pairs of each depth, and the depth of the start pair.
    Shortest(&'a str),
    /// `advise SYSTEM COSTS H`: the least worst cost of H requests, and the services to use.
    Advise {
        /// The system's name.
        system: &'a str,
        /// The name of the text of costs.
        costs: &'a str,
        /// The number of requests.
        requests: Requests,
    },
    /// `resilience SYSTEM`: the outlook of the start pair, and its outlook after services fail.
    Resilience(&'a str),
    /// `make N`: a summary of the script's session on a system of N workers.
    Make(Workers),
}

ghost use Rattle.roman_top.specs.Command.{command_as, command_of, command_with_one, command_with_two, command_with_three};

/// Returns the command that the words form, or `None` if they form none.
pub(crate) fn command_of(words: &Words) -> Option<Command<'_>>
    ensures { option_map command_as result ≡ command_of words.now }
{
    match words.len() {
        2 => with_one(words.at(0), words.at(1)),
        3 => with_two(words.at(0), words.at(1), words.at(2)),
        4 => with_three(words.at(0), words.at(1), words.at(2), words.at(3)),
        _ => None,
    }
}

/// Returns the command of a word and one argument.
fn with_one<'a>(word: &str, name: &'a str) -> Option<Command<'a>>
    ensures { option_map command_as result ≡ command_with_one word.now name.now }
{
    match word {
        "synth" => Some(Command::Synth(name)),
        "run" => Some(Command::Run(name)),
        "certify" => Some(Command::Certify(name)),
        "shortest" => Some(Command::Shortest(name)),
        "resilience" => Some(Command::Resilience(name)),
        "make" => Some(Command::Make(workers_of(name)?)),
        _ => None,
    }
}

/// Returns the command of a word and two arguments.
fn with_two<'a>(word: &str, name: &'a str, other: &'a str) -> Option<Command<'a>>
    ensures { option_map command_as result ≡ command_with_two word.now name.now other.now }
{
    match word {
        "run" => Some(Command::RunOnShelf {
            system: name,
            session: other,
        }),
        "check" => Some(Command::Check {
            system: name,
            certificate: other,
        }),
        _ => None,
    }
}

/// Returns the command of a word and three arguments.
fn with_three<'a>(word: &str, name: &'a str, other: &'a str, third: &str) -> Option<Command<'a>>
    ensures { option_map command_as result ≡ command_with_three word.now name.now other.now third.now }
{
    match word {
        "advise" => Some(Command::Advise {
            system: name,
            costs: other,
            requests: requests_of(third)?,
        }),
        _ => None,
    }
}

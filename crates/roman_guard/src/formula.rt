//! Guards as formulas.
ghost use Rattle.std.specs.Prelude.{◌≡◌, map};
ghost use Rattle.roman_guard.specs.Meaning.{holds, is_one_of, intersection, union};

/// A formula over the numbers of environment states. It stands for the set of states in which it
/// holds.
#[derive(Debug, Drop)]
pub enum Guard {
    /// Holds in every state.
    All,
    /// Holds in no state.
    Never,
    /// Holds in the listed states.
    Among(Vec<u8>),
    /// Holds in the states in which the inner guard doesn't hold.
    Not(Box<Guard>),
    /// Holds in the states in which all of the guards hold. An empty list holds in every state.
    Both(Vec<Guard>),
    /// Holds in the states in which at least one of the guards holds. An empty list holds in no state.
    Either(Vec<Guard>),
}

/// Returns whether the guard holds in state `e`.
#[cycle(guard)]
pub(crate) fn holds_at(guard: &Guard, e: u8) -> bool
    ensures { result ≡ holds guard.now e }
{
    match guard {
        Guard::All => true,
        Guard::Never => false,
        Guard::Among(states) => lists(states, e),
        Guard::Not(inner) => !holds_at(inner, e),
        Guard::Both(parts) => all_hold(parts, e),
        Guard::Either(parts) => some_holds(parts, e),
    }
}

/// Returns whether each of the guards holds in state `e`.
#[cycle(guard)]
fn all_hold(parts: &[Guard], e: u8) -> bool
    ensures { result ≡ intersection (map holds parts.now) e }
{
    for part in parts {
        if !holds_at(part, e) {
            return false;
        }
    }
    true
}

/// Returns whether at least one of the guards holds in state `e`.
#[cycle(guard)]
fn some_holds(parts: &[Guard], e: u8) -> bool
    ensures { result ≡ union (map holds parts.now) e }
{
    for part in parts {
        if holds_at(part, e) {
            return true;
        }
    }
    false
}

/// Returns whether state `e` is listed.
fn lists(states: &[u8], e: u8) -> bool
    ensures { result ≡ is_one_of states.now e }
{
    states.iter().any(|&state| state == e)
}

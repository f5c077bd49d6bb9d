//! The open request by numbers.
ghost use Rattle.std.specs.Prelude.{◌≡◌};
ghost use Rattle.roman_rules.specs.Bits.{HasBits, has_seat};
ghost use Rattle.roman_c.specs.Figures.{AreOffered, phase_number};

use roman_rules::{SeatSet, with_bit};
use roman_session::{Phase, Session};

/// Returns the bits of the offered services, or 0 if no request is open.
pub(crate) fn offered_bits(session: &Session) -> u32
    ensures { AreOffered session.now session.now.phase result }
{
    match session.phase() {
        Phase::Offered(action) => bits_of(session.offered(action)),
        _ => 0,
    }
}

fn bits_of(set: SeatSet) -> u32
    ensures { HasBits result (has_seat set) }
{
    let mut bits = 0;
    for k in 0..32 {
        bits = with_bit(bits, k, set.has(k));
    }
    bits
}

/// Returns 0 if no request is open, 1 if services are offered for it, and 2 if it is delegated.
pub(crate) fn phase_number(phase: Phase) -> u32
    ensures { result ≡ phase_number phase }
{
    match phase {
        Phase::Idle => 0,
        Phase::Offered(_) => 1,
        Phase::Delegated(..) => 2,
    }
}

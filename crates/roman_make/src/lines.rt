//! The session for the made systems.
ghost use Rattle.std.specs.Prelude.{◌≡◌, ◌≤◌, ◌↔◌, IsNone, IfSome, Some, slice_get};
ghost use Rattle.roman_make.specs.Script.{script_lines};

/// The lines of the session, each without its newline.
static LINES: [&[u8]; 13] = [
    b"freeze w1",
    b"thaw w1",
    b"die w1",
    b"join spare worker idle",
    b"do start",
    b"use spare",
    b"saw busy floor",
    b"do stop",
    b"use spare",
    b"saw worn floor",
    b"do mend",
    b"use spare",
    b"saw idle floor",
];

/// Returns line `i` of the session for the made systems, counted from 0, without its newline. Returns
/// `None` exactly when `i` is 13 or more.
pub fn script(i: u8) -> Option<&'static [u8]>
    ensures line { IfSome result (λ line. slice_get script_lines i ≡ Some line.now) }
    ensures end { IsNone result ↔ (13 ≤ i) }
{
    LINES.get(i as usize).copied()
}

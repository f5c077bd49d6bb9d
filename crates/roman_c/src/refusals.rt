//! The numbers of refusals for C programs.
ghost use Rattle.std.specs.Prelude.{◌≡◌, ◌≢◌};
ghost use Rattle.std.specs.Str.{bytes_eq};
ghost use Rattle.roman_c.specs.Refusals.{refusal_status};

/// Returns 100 plus the number of the refusal with this text, or 0 if the text isn't a refusal.
pub(crate) fn refusal_status(text: &[u8]) -> u32
    ensures status { result ≡ refusal_status text.now }
    ensures memory { result ≢ 9 }
{
    if is_line(text, b"error line\n") {
        101
    } else if is_line(text, b"error name\n") {
        102
    } else if is_line(text, b"error busy\n") {
        103
    } else if is_line(text, b"error idle\n") {
        104
    } else if is_line(text, b"no composition\n") {
        105
    } else if is_line(text, b"not allowed\n") {
        106
    } else if is_line(text, b"not offered\n") {
        107
    } else if is_line(text, b"impossible\n") {
        108
    } else if is_line(text, b"error frozen\n") {
        109
    } else if is_line(text, b"error ready\n") {
        110
    } else if is_line(text, b"error taken\n") {
        111
    } else if is_line(text, b"error full\n") {
        112
    } else if is_line(text, b"error limit\n") {
        113
    } else if is_line(text, b"error related\n") {
        114
    } else {
        0
    }
}

fn is_line(text: &[u8], line: &[u8]) -> bool
    ensures { result ≡ bytes_eq text.now line.now }
{
    text == line
}

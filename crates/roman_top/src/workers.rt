//! The number of workers of a made system.
ghost use Rattle.std.specs.Prelude.{◌≡◌, ◌≤◌};
ghost use Rattle.std.specs.Option.{option_map};
ghost use Rattle.roman_top.specs.Arguments.{workers_of};

/// A number of workers, from 1 to 10.
#[derive(Clone, Copy)]
pub(crate) struct Workers {
    /// The number of workers.
    pub(crate) count: u8,
    ghost some: { 1 ≤ count },
    ghost few: { count ≤ 10 },
}

/// Parses a number of workers, `1` to `9` or `10`. Returns `None` for every other word.
pub(crate) fn workers_of(word: &str) -> Option<Workers>
    ensures { option_map (λ workers. workers.count) result ≡ workers_of word.now }
{
    if word == "10" {
        return Some(Workers { count: 10 });
    }
    match word.as_bytes() {
        [digit @ b'1'..=b'9'] => Some(Workers {
            count: digit - b'0',
        }),
        _ => None,
    }
}

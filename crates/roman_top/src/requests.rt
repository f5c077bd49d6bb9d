//! The number of requests in the command `advise`.
ghost use Rattle.std.specs.Prelude.{◌≡◌, ◌≤◌};
ghost use Rattle.std.specs.Option.{option_map};
ghost use Rattle.roman_cost.specs.declared.limits.TheConstants.{MAX_REQUESTS};
ghost use Rattle.roman_top.specs.Arguments.{request_count_of};

use roman_cost::MAX_REQUESTS;

/// A number of requests, from 1 to [`MAX_REQUESTS`].
#[derive(Clone, Copy)]
pub(crate) struct Requests {
    /// The number of requests.
    pub(crate) count: u8,
    ghost some: { 1 ≤ count },
    ghost few: { count ≤ MAX_REQUESTS },
}

/// Parses a number of requests from 1 to [`MAX_REQUESTS`], in decimal without a sign or a leading
/// zero. Returns `None` for every other word.
pub(crate) fn requests_of(word: &str) -> Option<Requests>
    ensures { option_map (λ requests. requests.count) result ≡ request_count_of word.now }
{
    match word.as_bytes() {
        [digit @ b'1'..=b'9'] => Some(Requests {
            count: digit - b'0',
        }),
        [tens @ b'1'..=b'9', ones @ b'0'..=b'9'] => {
            let count = (tens - b'0') * 10 + (ones - b'0');
            if count > MAX_REQUESTS {
                return None;
            }
            Some(Requests { count })
        }
        _ => None,
    }
}

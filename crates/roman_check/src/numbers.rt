//! Reads decimal numbers.
ghost use Rattle.std.specs.Prelude.{◌≡◌, ◌≢◌, ℕ, ◌-◌, ◌<◌, ◌≤◌, length, take, decimal, MatchOption, IsTrue, ◌↔◌};
ghost use Rattle.std.specs.Int.{IsInRange, IsOutOfRange};
ghost use Rattle.std.specs.Str.Parse.{AllDigits, digits_value};
ghost use Rattle.roman_check.specs.Decimals.{IsTrim, IsNumberTo, HasDigits};

/// The greatest number of digits that a `u32` has.
const MOST_DIGITS: usize = 10;

/// Returns the value of a digit, or more than 9 if the byte isn't a digit.
pub(crate) fn digit(byte: u8) -> u64
    ensures digit { result ≤ 9 → IsInRange 48 57 byte × (result ≡ byte - 48) }
    ensures other { 9 < result → IsOutOfRange 48 57 byte }
{
    u64::from(byte).wrapping_sub(u64::from(b'0'))
}

/// Reads the digits at the start of the bytes, at most ten. Returns their value, leading zeros
/// included, and how many they are.
#[inline]
#[tactic(auto, using(crate::proofs::DigitLemmas::digits_step, crate::proofs::DigitLemmas::digits_below))]
fn front_digits(bytes: &[u8]) -> (u64, usize)
    ensures { HasDigits bytes.now result.0 result.1 }
{
    let mut value = 0u64;
    let most = bytes.len().min(MOST_DIGITS);
    for i in 0..most {
        let digit = digit(bytes[i]);
        if digit > 9 {
            return (value, i);
        }
        value = value * 10 + digit;
    }
    (value, most)
}

/// Reads the digits at the start of the bytes, up to the byte `stop`. Returns their value, leading
/// zeros included, and how many they are. Returns `None` exactly if the bytes don't begin with at
/// most ten digits followed by `stop`.
#[inline]
pub(crate) fn number_to(bytes: &[u8], stop: u8) -> Option<(u64, usize)>
    requires { stop < 48 }
    ensures { MatchOption result
        ((i : ℕ) → IsNumberTo stop bytes.now i → ⊥)
        (λ r. IsNumberTo stop bytes.now r.1 × (r.0 ≡ digits_value 10 (take r.1 bytes.now))) }
{
    let (value, end) = front_digits(bytes);
    if end >= bytes.len() {
        return None;
    }
    if bytes[end] != stop {
        return None;
    }
    Some((value, end))
}

/// Returns whether the text has one to ten bytes and no leading zero.
fn is_trim(text: &[u8]) -> bool
    ensures { IsTrue result ↔ IsTrim text.now }
{
    !text.is_empty() && text.len() <= MOST_DIGITS && (text[0] != b'0' || text.len() == 1)
}

/// Returns the number below the bound that has this decimal text, or `None` if no number has it.
/// Requires a text of digits with the value `value`.
#[tactic(auto, using(crate::proofs::DigitLemmas::decimal_shape, crate::proofs::DigitLemmas::no_small_number, crate::proofs::DigitLemmas::decimal_from_digits))]
pub(crate) fn trim_below(value: u64, text: &[u8], bound: u32) -> Option<u32>
    requires digits { AllDigits 10 text.now }
    requires value { value ≡ digits_value 10 text.now }
    ensures { MatchOption result
        ((n : ℕ) → n < bound → decimal n ≢ text.now)
        (λ n. (n < bound) × (decimal n ≡ text.now)) }
{
    if !is_trim(text) || value >= u64::from(bound) {
        return None;
    }
    Some(value as u32)
}

/// Returns the number below the bound that has this decimal text, or `None` if no number has it.
#[tactic(auto, using(crate::proofs::DigitLemmas::no_decimal, crate::proofs::DigitLemmas::digits_of_all))]
pub(crate) fn number_below(text: &[u8], bound: u32) -> Option<u32>
    ensures { MatchOption result
        ((n : ℕ) → n < bound → decimal n ≢ text.now)
        (λ n. (n < bound) × (decimal n ≡ text.now)) }
{
    let (value, end) = front_digits(text);
    if end < text.len() {
        return None;
    }
    trim_below(value, text, bound)
}

/// Returns whether the text is the decimal text of the number.
#[tactic(auto, using(crate::proofs::DigitLemmas::no_decimal, crate::proofs::DigitLemmas::digits_of_all, crate::proofs::DigitLemmas::decimal_from_digits, crate::proofs::DigitLemmas::decimal_shape))]
pub(crate) fn is_number(text: &[u8], n: u32) -> bool
    ensures { IsTrue result ↔ (decimal n ≡ text.now) }
{
    let (value, end) = front_digits(text);
    if end < text.len() {
        return false;
    }
    is_trim(text) && value == u64::from(n)
}

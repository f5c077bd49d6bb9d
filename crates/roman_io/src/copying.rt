//! Copies bytes from the texts that the objects in memory hold.
ghost use Rattle.std.specs.Prelude.{◌≡◌, ℕ, ◌+◌, ◌/◌, ◌⊎◌, ◌^◌, ◌<◌, ◌≤◌, ◌++◌, length, take, drop, min, option_copied, IfSome};
ghost use Rattle.roman_io.specs.Memory.{texts_of};
ghost use Rattle.roman_io.specs.Shelf.{Fetches, text_at};

/// Copies bytes from the beginning of `from` to the beginning of `into`, until either ends. Returns
/// their number.
pub fn copy_prefix(from: &[u8], into: &mut [u8]) -> usize
    ensures count { result ≡ min (length from.now) (length into.new) }
    ensures bytes { take result into.new ≡ take result from.now }
{
    let count = from.len().min(into.len());
    into[..count].copy_from_slice(&from[..count]);
    count
}

/// Copies bytes of a text from place `at` on to the beginning of `into`, until either ends. Returns
/// their number, which is 0 at or past the end of the text.
pub fn copy_from(text: &[u8], at: u64, into: &mut [u8]) -> usize
    requires { length text.now < 2 ^ 63 }
    ensures count { result ≡ min (length (drop at text.now)) (length into.new) }
    ensures fetches { Fetches text.now at into.new result }
{
    let at = at as usize;
    if at >= text.len() {
        return 0;
    }
    copy_prefix(&text[at..], into)
}

/// Returns the first text with this name.
pub fn find_text<'a>(files: &'a [(String, Vec<u8>)], name: &str) -> Option<&'a [u8]>
    ensures text { option_copied result ≡ text_at (texts_of files.now) name.now }
    ensures short { IfSome result (λ text. length text.now < 2 ^ 63) }
{
    for file in files {
        if file.0.as_str() == name {
            return Some(file.1.as_slice());
        }
    }
    None
}

/// Copies bytes from place `at` on to the beginning of `into`, until either ends. Returns their
/// number.
pub fn copy_rest(bytes: &[u8], at: usize, into: &mut [u8]) -> usize
    requires { at ≤ length bytes.now }
    ensures count { result ≡ min (length (drop at bytes.now)) (length into.new) }
    ensures moves { drop at bytes.now ≡ take result into.new ++ drop (at + result) bytes.now }
    ensures within { at + result ≤ length bytes.now }
{
    copy_prefix(&bytes[at..], into)
}

/// Copies at most `piece` bytes from place `at` on to the beginning of `into`, until either ends.
/// Returns their number.
pub fn copy_piece(bytes: &[u8], at: usize, piece: usize, into: &mut [u8]) -> usize
    requires { at ≤ length bytes.now }
    ensures count { result ≡ min (length (drop at bytes.now)) (min piece (length into.new)) }
    ensures moves { drop at bytes.now ≡ take result into.new ++ drop (at + result) bytes.now }
    ensures within { at + result ≤ length bytes.now }
{
    let room = piece.min(into.len());
    copy_rest(bytes, at, &mut into[..room])
}

/// Appends the first half of a piece, rounded down. Appends nothing when out of memory.
pub fn append_half(written: &mut Vec<u8>, piece: &[u8])
    ensures half { (written.new.items ≡ written.old.items)
        ⊎ (written.new.items ≡ written.old.items ++ take (length piece.now / 2) piece.now) }
    ensures prefix { (n : ℕ) × (written.new.items ≡ written.old.items ++ take n piece.now) }
{
    let half = piece.len() / 2;
    let _ = written.extend_from_slice(&piece[..half]);
}

//! Finds the words of a line.
ghost use Rattle.std.specs.Prelude.{◌≡◌, ◌≤◌, position, length};
ghost use Rattle.std.specs.List.{position_or_len};
ghost use Rattle.std.specs.Str.Lines.{strip_carriage_return};
ghost use Rattle.roman_text.specs.Shapes.{IsFirstWord, is_blank, is_comment, is_word_byte};

/// Returns whether the byte separates words. The first comparison excludes most bytes.
fn is_blank(byte: u8) -> bool
    ensures { result ≡ is_blank byte }
{
    byte <= b' ' && (byte == b' ' || byte == b'\t')
}

/// Returns the place where the first word begins, or `None` if there is no word.
fn word_start(line: &[u8]) -> Option<usize>
    ensures { result ≡ position is_word_byte line.now }
{
    line.iter().position(|&byte| !is_blank(byte))
}

fn first_blank(line: &[u8]) -> Option<usize>
    ensures { result ≡ position is_blank line.now }
{
    line.iter().position(|&byte| is_blank(byte))
}

/// Returns the place of the first blank, or the length of the line if there is no blank. A word at
/// the start of the line ends there.
#[tactic(auto, using(crate::proofs::WordLemmas::places))]
fn word_end(line: &[u8]) -> usize
    ensures end { result ≡ position_or_len is_blank line.now }
    ensures within { result ≤ length line.now }
{
    first_blank(line).unwrap_or(line.len())
}

/// Returns the first word of a line and the rest of the line after it. Returns `None` exactly when
/// the line has no word. Words are separated by spaces and tabs.
#[inline(always)]
pub fn first_word(line: &[u8]) -> Option<(&[u8], &[u8])>
    ensures { IsFirstWord line.now result }
{
    let start = word_start(line)?;
    let words = &line[start..];
    Some(words.split_at(word_end(words)))
}

/// Returns whether a line's first word begins with `#`, which makes the line a comment.
pub fn is_comment(word: &[u8]) -> bool
    ensures { result ≡ is_comment word.now }
{
    word.starts_with(b"#")
}

/// Returns the line without its last byte if that is byte 13, and the whole line otherwise.
pub fn without_return(line: &[u8]) -> &[u8]
    ensures { result.now ≡ strip_carriage_return line.now }
{
    match line.last() {
        Some(b'\r') => &line[..line.len() - 1],
        _ => line,
    }
}

//! The texts that a C program passes, by their names.
ghost use Rattle.std.specs.Prelude.{◌≡◌, ◌≤◌, ◌^◌, ◌<◌, ◌∷◌, ◌⊎◌, min, length, take, drop, option_copied, [], Some, IfOk, IfSome, OnOk, OnErr};
ghost use Rattle.roman_io.specs.Faults.{HasCause};
ghost use Rattle.roman_io.specs.Memory.{texts_of};
ghost use Rattle.roman_io.specs.Shelf.{Fetches, shelf_text, text_at};
ghost use Rattle.roman_c.specs.Copies.{CopiesAll};

use roman_io::{Failed, Shelf};
use std::alloc::{AllocError, Global};

/// Names with their texts, the newest first. The newest text with a name counts.
#[derive(Drop)]
pub struct TextShelf {
    /// The names with their texts.
    pub files: Vec<(String, Vec<u8>)>,
    /// The number of fetches of texts that the shelf lacks.
    pub missing: u64,
}

impl TextShelf {
    pub(crate) fn new(alloc: Global) -> TextShelf
        ensures texts { texts_of result.files.items ≡ [] }
        ensures missing { result.missing ≡ 0 }
    {
        TextShelf {
            files: Vec::new(alloc),
            missing: 0,
        }
    }

    /// Adds a text. Fails only when out of memory, and then leaves the shelf unchanged.
    pub(crate) fn add(&mut self, alloc: Global, name: &str, text: &[u8]) -> Result<(), AllocError>
        ensures ok { OnOk result (texts_of self.new.files.items
            ≡ (name.now, text.now) ∷ texts_of self.old.files.items) }
        ensures err { OnErr result (texts_of self.new.files.items ≡ texts_of self.old.files.items) }
        ensures missing { self.new.missing ≡ self.old.missing }
    {
        let mut bytes = Vec::new(alloc);
        bytes.extend_from_slice(text)?;
        let name = String::from_str(alloc, name)?;
        self.files.insert(0, (name, bytes))?;
        Ok(())
    }
}

impl Shelf for TextShelf {
    ghost texts = { λ s. Some (texts_of s.files.items) };

    ghost faults = { λ s. s.missing };

    fn fetch(&mut self, name: &str, at: u64, into: &mut [u8]) -> Result<usize, Failed>
        ensures bound { IfOk result (λ n. n ≤ length into.new) }
        ensures bytes { IfOk result (Fetches (shelf_text (texts_of self.old.files.items) name.now) at into.new) }
        ensures texts { Some (texts_of self.new.files.items) ≡ Some (texts_of self.old.files.items) }
        ensures cause { HasCause self.old.missing self.new.missing result }
    {
        match find_text(&self.files, name) {
            Some(text) => Ok(copy_from(text, at, into)),
            None => {
                self.missing = self.missing.saturating_add(1);
                Err(Failed)
            }
        }
    }
}

/// Returns the first text with this name.
fn find_text<'a>(files: &'a [(String, Vec<u8>)], name: &str) -> Option<&'a [u8]>
    ensures text { option_copied result ≡ text_at (texts_of files.now) name.now }
    ensures short { IfSome result (λ text. length text.now < 2 ^ 63) }
{
    for file in files {
        if file.0.as_str() == name {
            return Some(file.1.as_slice());
        }
    }
    None
}

/// Copies bytes of a text from place `at` on to the beginning of `into`, until either ends. Returns
/// their number.
fn copy_from(text: &[u8], at: u64, into: &mut [u8]) -> usize
    requires { length text.now < 2 ^ 63 }
    ensures within { result ≤ length into.new }
    ensures fetches { Fetches text.now at into.new result }
{
    let at = at as usize;
    if at >= text.len() {
        return 0;
    }
    copy_prefix(&text[at..], into)
}

/// Copies bytes from the beginning of `from` to the beginning of `into`, until either ends. Returns
/// their number.
pub(crate) fn copy_prefix(from: &[u8], into: &mut [u8]) -> usize
    ensures count { result ≡ min (length from.now) (length into.new) }
    ensures bytes { take result into.new ≡ take result from.now }
{
    let count = from.len().min(into.len());
    into[..count].copy_from_slice(&from[..count]);
    count
}

/// Copies bytes to the beginning of `into`, until either ends. Returns the length of all of them.
pub(crate) fn copy_all(from: &[u8], into: &mut [u8]) -> usize
    ensures { CopiesAll from.now into.new result }
{
    copy_prefix(from, into);
    from.len()
}

//! Names that are stored in place.
ghost use Rattle.std.specs.Prelude.{◌≡◌, ℕ, ◌-◌, ◌≤◌, ◌++◌, length, replicate, take, IsTrue};
ghost use Rattle.std.specs.List.{list_all};
ghost use Rattle.std.specs.Option.{SomeIff};
ghost use Rattle.std.specs.Str.{bytes_eq};
ghost use Rattle.std.specs.Cmp.{on_equiv, on_per, partial_equiv_from_equiv};
ghost use Rattle.std.specs.Cmp.Lexicographic.{nat_list_eq_equiv};
ghost use Rattle.std.specs.Cmp.Rules.{hashing};
ghost use Rattle.std.specs.Hash as fed;
ghost use Rattle.std.proofs.Common.{rules};
ghost use Rattle.roman_read.specs.Names.{is_name, is_name_byte};

use std::fmt;
use std::hash::{Hash, Hasher};
use std::marker::Model;

/// The greatest number of bytes of a name.
const LONGEST: usize = 32;

/// The name of a state, an action, a behaviour, a target or a service: 1 to 32 bytes, each an ASCII
/// letter, a digit, `_` or `-`. The type is `Copy` and needs no allocation. Contracts see the list of
/// its bytes.
#[derive(Clone, Copy)]
pub struct Name {
    bytes: [u8; LONGEST],
    len: u8,
}

impl Model for Name {
    ghost use Rattle.std.specs.Prelude.{ℕ, List, ◌-◌, ◌++◌, length, take, replicate, IsTrue};
    ghost use Rattle.roman_read.specs.Names.{is_name, IsPadded};

    ghost Value = { List ℕ };

    ghost view = { λ n. take n.len n.bytes };

    ghost invariant = { λ n. IsPadded n.bytes n.len × IsTrue (is_name (take n.len n.bytes)) };

    ghost inverse = { λ xs. record { bytes = xs ++ replicate (32 - length xs) 0; len = length xs } };

    ghost inverse_ok = { λ n h i. record { bytes = h.0.zeros i; len = h.0.short i } };
}

impl Name {
    /// Returns the name with these bytes, or `None` exactly when they break the rule of names.
    /// Takes no memory.
    pub fn new(bytes: &[u8]) -> Option<Name>
        ensures name { SomeIff result (IsTrue (is_name bytes.now)) bytes.now }
    {
        if !is_word(bytes) {
            return None;
        }
        Some(Name {
            bytes: padded(bytes),
            len: bytes.len() as u8,
        })
    }

    /// Returns the bytes of the name, from 1 to 32.
    pub fn bytes(&self) -> &[u8]
        ensures bytes { result.now ≡ self.now }
        ensures rule { IsTrue (is_name self.now) }
    {
        &self.bytes[..self.len as usize]
    }

    /// Returns the bytes of the name, padded with zeros to 32 bytes. Copying all 32 takes a
    /// processor only a few steps, whatever the length of the name.
    #[inline]
    pub fn padded(&self) -> &[u8; LONGEST]
        ensures { take (length self.now) result.now ≡ self.now }
    {
        &self.bytes
    }

    /// Does nothing. Its contract states that the bytes of every name obey the rule of names.
    pub fn known(&self)
        ensures rule { IsTrue (is_name self.now) }
    {
        let _bytes = &self.bytes;
    }
}

/// Returns whether a name may have this byte.
fn is_name_byte(byte: u8) -> bool
    ensures { result ≡ is_name_byte byte }
{
    byte.is_ascii_alphanumeric() || byte == b'_' || byte == b'-'
}

/// Returns whether a name may have each of these bytes.
fn are_name_bytes(bytes: &[u8]) -> bool
    ensures { result ≡ list_all is_name_byte bytes.now }
{
    bytes.iter().all(|&byte| is_name_byte(byte))
}

/// Returns whether the bytes are a name.
fn is_word(bytes: &[u8]) -> bool
    ensures { result ≡ is_name bytes.now }
{
    !bytes.is_empty() && bytes.len() <= LONGEST && are_name_bytes(bytes)
}

/// Returns the bytes, padded with zeros to the greatest length of a name.
#[tactic(auto, using(crate::proofs::NameLemmas::zeros_after))]
fn padded(bytes: &[u8]) -> [u8; LONGEST]
    requires { length bytes.now ≤ 32 }
    ensures { result ≡ bytes.now ++ replicate (32 - length bytes.now) 0 }
{
    let mut room = [0; LONGEST];
    room[..bytes.len()].copy_from_slice(bytes);
    room
}

impl PartialEq for Name {
    ghost eq = { bytes_eq };

    ghost laws = { on_per (λ n. n) (partial_equiv_from_equiv nat_list_eq_equiv) };

    fn eq(&self, other: &Name) -> bool {
        self.bytes() == other.bytes()
    }
}

impl Eq for Name {
    ghost laws = { on_equiv (λ n. n) nat_list_eq_equiv };
}

impl Hash for Name {
    ghost hash_input = { λ n. fed.slice fed.u8 n };

    ghost respects_eq = { Prim.search (hashing, rules) };

    fn hash<H: Hasher>(&self, state: &mut H) {
        self.bytes().hash(state);
    }
}

impl fmt::Debug for Name {
    fn fmt<W: fmt::Write>(&self, f: &mut fmt::Formatter<W>) -> fmt::Result {
        fmt::Debug::fmt(&self.bytes(), f)
    }
}

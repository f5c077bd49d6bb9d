//! Tables of numbered names.
ghost use Rattle.std.specs.Prelude.{◌≡◌, ◌-◌, ◌^◌, ◌<◌, [], ◌∷◌, ◌++◌, length, slice_get, Some, None, IfSome, IfOk, OnOk, IsTrue, ◌↔◌};
ghost use Rattle.roman_read.specs.Names.{is_name, place_of};
ghost use Rattle.roman_read.specs.Tables.{Adds, AreDistinct, add_error_number};

use crate::name::Name;
use indexmap::IndexSet;
use std::alloc::{AllocError, Global};
use std::marker::Model;
use thiserror::Error;

/// A table of at most this many names is searched name by name, which is faster than hashing.
const FEW: usize = 8;

/// A list of distinct names, numbered from 0 in the order in which they were added. Contracts see the
/// list. Only [`add`](NameTable::add) and [`copy`](NameTable::copy) take memory.
pub struct NameTable {
    names: IndexSet<Name>,
}

// One proof step. A derived drop is a step for each vector, at each exit of a function that owns it.
impl Drop for NameTable {
    fn drop(self) {
        let NameTable { names: _ } = self;
    }
}

impl Model for NameTable {
    ghost use Rattle.std.specs.Prelude.{ℕ, List, length, ◌<◌, ◌^◌, IsTrue};
    ghost use Rattle.std.specs.List.{list_all};
    ghost use Rattle.roman_read.specs.Names.{is_name};

    ghost Value = { List (List ℕ) };

    ghost view = { λ t. t.names.keys };

    ghost invariant = { λ t. (length t.names.keys < 2 ^ 32) × IsTrue (list_all is_name t.names.keys) };
}

/// Why a name wasn't added. The table is unchanged.
#[derive(Clone, Copy, Debug, PartialEq, Eq, Error)]
pub enum AddError {
    /// The table already has the name, at this place.
    #[error("the name stands at place {0} already")]
    Repeated(u32),
    /// Out of memory.
    #[error("there is no memory")]
    Memory,
}

impl AddError {
    /// Returns the number of the error, 1 for `Repeated` and 2 for `Memory`.
    pub fn number(&self) -> u8
        ensures number { result ≡ add_error_number self.now }
    {
        match self {
            AddError::Repeated(_) => 1,
            AddError::Memory => 2,
        }
    }
}

impl NameTable {
    /// Returns an empty table. Takes no memory.
    pub fn new(alloc: Global) -> NameTable
        ensures empty { result ≡ [] }
    {
        NameTable {
            names: IndexSet::new(alloc),
        }
    }

    /// Returns a table with the same names in the same order. Fails only when out of memory.
    #[tactic(auto, using(crate::proofs::NameLemmas::copies))]
    pub fn copy(&self, alloc: Global) -> Result<NameTable, AllocError>
        ensures same { IfOk result (λ copy. copy ≡ self.now) }
    {
        let mut copy = NameTable::new(alloc);
        for i in 0..self.len() {
            push_new(&mut copy, *self.at(i))?;
        }
        Ok(copy)
    }

    /// Returns the number of names, which is below 2^32.
    pub fn len(&self) -> u32
        ensures len { result ≡ length self.now }
        ensures distinct { AreDistinct self.now }
    {
        let names = &self.names;
        names.len() as u32
    }

    /// Returns whether there are no names.
    pub fn is_empty(&self) -> bool
        ensures empty { IsTrue result ↔ (self.now ≡ []) }
    {
        self.names.is_empty()
    }

    /// Adds a name at the end, and returns its place. Requires fewer than 2^32 - 1 names. Fails
    /// with `Repeated` and the place of the name exactly when the table already has it, and with
    /// `Memory` only when out of memory. The table is then unchanged.
    #[tactic(auto, using(crate::proofs::NameLemmas::places))]
    pub fn add(&mut self, name: Name) -> Result<u32, AddError>
        requires { length self.old < 2 ^ 32 - 1 }
        ensures add { Adds self.old self.new name result }
    {
        name.known(); // the bytes of a name obey the rule of names
        let names = &mut self.names;
        let (place, added) = match names.insert_full(name) {
            Ok(found) => found,
            Err(_) => return Err(AddError::Memory),
        };
        let place = place as u32;
        if !added {
            return Err(AddError::Repeated(place));
        }
        Ok(place)
    }

    /// Returns the place of the name with these bytes, or `None` exactly when no name has them.
    /// Accepts any bytes.
    pub fn find(&self, bytes: &[u8]) -> Option<u32>
        ensures place { result ≡ place_of self.now bytes.now }
        ensures within { IfSome result (λ i. i < length self.now) }
    {
        let names = &self.names;
        let place = if names.len() <= FEW {
            self.sought(bytes)?
        } else {
            self.looked_up(bytes)?
        };
        Some(place as u32)
    }

    /// Returns the place of the name with these bytes. Searches the names one by one.
    #[tactic(auto, using(std::proofs::lemmas::Iterator::Search::position_from_yields_List))]
    fn sought(&self, bytes: &[u8]) -> Option<usize>
        ensures place { result ≡ place_of self.now bytes.now }
        ensures within { IfSome result (λ i. i < length self.now) }
    {
        let names = self.names.as_slice();
        names.iter().position(|name| bytes == name.bytes())
    }

    /// Returns the place of the name with these bytes. Looks it up by its hash.
    #[tactic(auto, using(crate::proofs::NameLemmas::places))]
    fn looked_up(&self, bytes: &[u8]) -> Option<usize>
        ensures place { result ≡ place_of self.now bytes.now }
        ensures within { IfSome result (λ i. i < length self.now) }
    {
        let names = &self.names;
        let name = Name::new(bytes)?;
        names.get_index_of(&name)
    }

    /// Returns the name at place `i`, from 0. Requires `i` below the number of names.
    pub fn at(&self, i: u32) -> &Name
        requires { i < length self.now }
        ensures name { slice_get self.now i ≡ Some result.now }
    {
        &self.names.as_slice()[i as usize]
    }
}

/// Adds a name that the table doesn't have. Fails only when out of memory.
fn push_new(table: &mut NameTable, name: Name) -> Result<(), AllocError>
    requires room { length table.old < 2 ^ 32 - 1 }
    requires new { place_of table.old name ≡ None }
    ensures added { OnOk result (table.new ≡ table.old ++ name ∷ []) }
{
    match table.add(name) {
        Ok(_) => Ok(()),
        Err(_) => Err(AllocError),
    }
}

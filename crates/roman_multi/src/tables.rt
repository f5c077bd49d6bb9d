//! Tables of names.
ghost use Rattle.std.specs.Prelude.{◌≤◌, length, map, All, IsFalse};
ghost use Rattle.std.specs.List.{list_any};
ghost use Rattle.roman_multi.specs.Combining.{is_long};
ghost use Rattle.roman_multi.specs.Lists.{TablesNames, IsWord};

use crate::error::CombineError;
use roman_read::{AddError, Name, NameTable};
use std::alloc::Global;

/// Returns the table of the words as names, in order. Fails with `Repeated` exactly when two are
/// equal.
#[tactic(auto, using(crate::proofs::TableLemmas::tables))]
pub(crate) fn table_of(alloc: Global, words: &[Vec<u8>]) -> Result<NameTable, CombineError>
    requires few { length words.now ≤ 64 }
    requires words { All (λ word. IsWord word.items) words.now }
    requires short { IsFalse (list_any is_long (map (λ word. word.items) words.now)) }
    ensures { TablesNames (map (λ word. word.items) words.now) result }
{
    let mut names = NameTable::new(alloc);
    for word in words {
        let name = Name::new(word).unwrap();
        match names.add(name) {
            Ok(_) => {}
            Err(AddError::Repeated(_)) => return Err(CombineError::Repeated),
            Err(AddError::Memory) => return Err(CombineError::Memory),
        }
    }
    Ok(names)
}

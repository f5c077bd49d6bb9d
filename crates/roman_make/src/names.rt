//! Names from tables.
ghost use Rattle.std.specs.Prelude.{◌≡◌, ◌-◌, ◌^◌, ◌<◌, ◌≤◌, ◌∷◌, ◌++◌, [], length, map, None, IsTrue, IfOk, OnOk};
ghost use Rattle.roman_read.specs.Names.{is_name, place_of};
ghost use Rattle.roman_make.specs.Names.{are_new};

use roman_read::{AddError, Name, NameTable};
use std::alloc::{AllocError, Global};

/// Returns the name with these bytes. Requires bytes that obey the rule of names.
pub(crate) fn name_of(bytes: &[u8]) -> Name
    requires { IsTrue (is_name bytes.now) }
    ensures { result ≡ bytes.now }
{
    Name::new(bytes).unwrap()
}

/// Returns the table of the names with these bytes, in order.
pub(crate) fn names_of(alloc: Global, words: &[&[u8]]) -> Result<NameTable, AllocError>
    requires few { length words.now ≤ 64 }
    requires new { IsTrue (are_new [] (map (λ word. word.now) words.now)) }
    ensures { IfOk result (λ names. names ≡ map (λ word. word.now) words.now) }
{
    let mut names = NameTable::new(alloc);
    for word in words {
        add_new(&mut names, name_of(word))?;
    }
    Ok(names)
}

/// Adds a name that the table doesn't have. Fails only when out of memory.
fn add_new(names: &mut NameTable, name: Name) -> Result<(), AllocError>
    requires few { length names.old < 2 ^ 32 - 1 }
    requires new { place_of names.old name ≡ None }
    ensures { OnOk result (names.new ≡ names.old ++ name ∷ []) }
{
    match names.add(name) {
        Ok(_) => Ok(()),
        Err(AddError::Repeated(_)) => unreachable!(),
        Err(AddError::Memory) => Err(AllocError),
    }
}

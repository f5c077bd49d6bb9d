//! Makes the systems.
ghost use Rattle.std.specs.Prelude.{◌≡◌, ◌<◌, ◌≤◌, ◌⊎◌, ◌↔◌, Err, IfOk};
ghost use Rattle.roman_library.specs.Library.{IsLibrary, plain};
ghost use Rattle.roman_make.specs.Made.{made};

use crate::error::MakeError;
use crate::parts::{make_floor, make_services, make_shift, make_worker};
use roman_library::Library;
use std::alloc::{AllocError, Global};

/// The greatest number of workers.
const MOST: u8 = 10;

/// The limit on cells, which is enough for ten workers.
const LIMIT: u32 = 4_194_304;

/// Makes the system with `n` workers, for `n` from 1 to 10. Fails with `Range` exactly when `n` is any
/// other number, and with `Memory` only when out of memory.
pub fn make(alloc: Global, n: u8) -> Result<Library, MakeError>
    ensures library { IfOk result (λ library. plain library ≡ made n) }
    ensures known { IfOk result (λ library. IsLibrary (plain library)) }
    ensures range { (result ≡ Err MakeError.Range) ↔ ((n < 1) ⊎ (10 < n)) }
{
    if n < 1 || n > MOST {
        return Err(MakeError::Range);
    }
    Ok(make_library(alloc, n)?)
}

/// Makes the library with the first `n` workers.
fn make_library(alloc: Global, n: u8) -> Result<Library, AllocError>
    requires { n ≤ 10 }
    ensures library { IfOk result (λ library. plain library ≡ made n) }
    ensures known { IfOk result (λ library. IsLibrary (plain library)) }
{
    let environment = make_floor(alloc)?;
    let worker = make_worker(alloc, &environment)?;
    let catalogue = Vec::from_array(alloc, [worker])?;
    let services = make_services(alloc, n)?;
    let target = make_shift(alloc, &environment)?;
    Ok(Library {
        environment,
        catalogue,
        services,
        target,
        limit: LIMIT,
    })
}

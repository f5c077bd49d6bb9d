//! Reads how large the system of a document is.
ghost use Rattle.std.specs.Prelude.{◌≡◌, map, IfOk, IfSome};
ghost use Rattle.roman_model.specs.Lists.{product_of};
ghost use Rattle.roman_joint.specs.NamedSys.{cells, system_of};
ghost use Rattle.roman_library.specs.Documents.{library_of};
ghost use Rattle.roman_library.specs.Library.{IsLibrary, plain};
ghost use Rattle.roman_library.specs.Refusals.{CausesLoad};
ghost use Rattle.roman_start.specs.Starts.{parts_of};
ghost use Rattle.roman_start.specs.Extents.{Measures, states_in};

use roman_io::Shelf;
use roman_library::{Library, LoadError, load};
use std::alloc::{AllocError, Global};

/// The sizes of a system, and the number of cells that its document allows.
#[derive(Drop)]
pub struct Extent {
    /// The number of states of each service, then of the target and of the environment, and then
    /// the number of actions. Their product is the number of cells of the system.
    pub sizes: Vec<u32>,
    /// The greatest number of cells that the document allows.
    pub limit: u32,
}

/// Reads the extent of the system document named `system`, whether or not the system is within its
/// limit. Leaves the texts of the shelf unchanged.
///
/// Fails with `Refused` only when the document breaks a rule, and names the first broken one. Fails
/// with `Fault` only when the shelf failed; its count of faults has then risen. Fails with `Memory`
/// only when out of memory.
pub fn extent_of<F: Shelf>(alloc: Global, system: &str, shelf: &mut F) -> Result<Extent, LoadError>
    ensures extent { IfSome (F.texts shelf.old) (λ texts. Measures result (library_of texts system.now)) }
    ensures texts { F.texts shelf.new ≡ F.texts shelf.old }
    ensures cause { CausesLoad (F.faults shelf.old) (F.faults shelf.new) result }
{
    let library = load(alloc, shelf, system)?;
    let Ok(sizes) = sizes_in(alloc, &library) else {
        return Err(LoadError::Memory);
    };
    Ok(Extent {
        sizes,
        limit: library.limit,
    })
}

/// Returns the sizes of a library's system. Fails only when out of memory.
fn sizes_in(alloc: Global, library: &Library) -> Result<Vec<u32>, AllocError>
    requires { IsLibrary (plain library.now) }
    ensures { IfOk result (λ sizes. product_of sizes.items ≡ cells (system_of (parts_of (plain library.now)))) }
{
    let mut sizes = service_sizes(alloc, library)?;
    sizes.push(library.target.states().len())?;
    sizes.push(library.environment.states().len())?;
    sizes.push(library.environment.actions().len())?;
    Ok(sizes)
}

/// Returns the number of states of each service of a library. Fails only when out of memory.
fn service_sizes(alloc: Global, library: &Library) -> Result<Vec<u32>, AllocError>
    requires { IsLibrary (plain library.now) }
    ensures { IfOk result (λ sizes. sizes.items ≡ map (states_in (plain library.now)) (plain library.now).services) }
{
    let mut sizes = Vec::new(alloc);
    for service in &library.services {
        let behaviour = &library.catalogue[service.behaviour as usize];
        sizes.push(behaviour.states().len())?;
    }
    Ok(sizes)
}

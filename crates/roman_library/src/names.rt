//! Looks up behaviours, services and targets by their names.
ghost use Rattle.std.specs.Prelude.{◌≡◌, ◌<◌, map, length, IfSome};
ghost use Rattle.roman_read.specs.Names.{place_of};
ghost use Rattle.roman_library.specs.Library.{behaviour_name, service_name};
ghost use Rattle.roman_multi.specs.Combining.{target_name};

use crate::library::Service;
use roman_multi::Named;
use roman_parts::Behaviour;

/// Returns the place in a catalogue of the behaviour with this name, or `None` exactly when no
/// behaviour has it. Takes no memory.
pub fn place_of_behaviour(catalogue: &[Behaviour], name: &[u8]) -> Option<usize>
    ensures place { result ≡ place_of (map behaviour_name catalogue.now) name.now }
    ensures within { IfSome result (λ place. place < length catalogue.now) }
{
    catalogue.iter().position(|b| name == b.name().bytes())
}

pub(crate) fn place_of_service(services: &[Service], name: &[u8]) -> Option<usize>
    ensures place { result ≡ place_of (map service_name services.now) name.now }
{
    services.iter().position(|s| name == s.name.bytes())
}

pub(crate) fn place_of_target(targets: &[Named], name: &[u8]) -> Option<usize>
    ensures place { result ≡ place_of (map target_name targets.now) name.now }
{
    targets.iter().position(|t| name == t.name.bytes())
}

//! The services of a document.
ghost use Rattle.std.specs.Prelude.{◌≡◌, ◌<◌, ◌≤◌, length, map, None, IfOk};
ghost use Rattle.serde_json.specs.View.{view, items_view};
ghost use Rattle.roman_read.specs.Names.{place_of};
ghost use Rattle.roman_parts.specs.Reading.{Gives};
ghost use Rattle.roman_library.specs.Library.{IsService, AreFewServices, service_name};
ghost use Rattle.roman_library.specs.Documents.{behaviour_place, state_of, frozen_of, rests_of, service_of, services_of};
ghost use Rattle.roman_library.specs.PartLists.{services_listed};
ghost use Rattle.roman_library.specs.Refusals.{LoadsQuietly};

use crate::library::Service;
use crate::locating::located;
use crate::names::{place_of_behaviour, place_of_service};
use crate::refusal::{LoadError, Part};
use roman_model::{MAX_BEHAVIOURS, MAX_SERVICES};
use roman_parts::{
    Behaviour, List, PartError, counted_member, looked, place_in, read_name, refused,
};
use roman_read::{Kind, member, text, truth};
use serde_json::Value;
use std::alloc::Global;

#[tactic(auto, unfolding(crate::specs::Documents::services_of))]
pub(crate) fn read_services(
    alloc: Global,
    document: &str,
    v: &Value,
    version: u64,
    catalogue: &[Behaviour],
) -> Result<Vec<Service>, LoadError>
    requires { length catalogue.now ≤ MAX_BEHAVIOURS }
    ensures services { LoadsQuietly (λ x. x.items) result (services_of document.now version catalogue.now
        (view v.now)) }
    ensures known { IfOk result (λ made. AreFewServices catalogue.now made.items) }
{
    let items = counted_member(v, "services", List::Services, 0, MAX_SERVICES as u32);
    let items = located(alloc, document, Part::System, items)?;
    read_items(alloc, document, items, version, catalogue)
}

/// Reads the services in the items of a list.
fn read_items(
    alloc: Global,
    document: &str,
    items: &[Value],
    version: u64,
    catalogue: &[Behaviour],
) -> Result<Vec<Service>, LoadError>
    requires items { length items.now ≤ MAX_SERVICES }
    requires catalogue { length catalogue.now ≤ MAX_BEHAVIOURS }
    ensures services { LoadsQuietly (λ x. x.items) result
        (services_listed document.now version catalogue.now (items_view items.now)) }
    ensures known { IfOk result (λ made. AreFewServices catalogue.now made.items) }
{
    let mut services = Vec::with_capacity(alloc, items.len())?;
    for (i, item) in items.iter().enumerate() {
        let read = read_service(item, version, catalogue, &services);
        let service = located(alloc, document, Part::Service(i as u32), read)?;
        services.push(service)?;
    }
    Ok(services)
}

#[tactic(auto, unfolding(crate::specs::Documents::behaviour_place, roman_parts::specs::Lists::place_in))]
/// Returns the place of a service's behaviour in the catalogue.
fn read_behaviour_place(v: &Value, catalogue: &[Behaviour]) -> Result<u8, PartError>
    requires { length catalogue.now ≤ MAX_BEHAVIOURS }
    ensures place { Gives (λ x. x) result (behaviour_place catalogue.now (view v.now)) }
    ensures within { IfOk result (λ place. place < length catalogue.now) }
{
    let name = looked(member(v, "behaviour"), List::Behaviour, 0)?;
    let name = looked(text(name), List::Behaviour, 0)?;
    match place_of_behaviour(catalogue, name.as_bytes()) {
        Some(place) => Ok(place as u8),
        None => Err(refused(Kind::Unknown, List::Behaviour, 0)),
    }
}

#[tactic(auto, using(crate::proofs::LibraryLemmas::states), unfolding(crate::specs::Documents::state_of))]
/// Reads the state of a service, or returns the start state of its behaviour if none is named.
fn read_state(v: &Value, behaviour: &Behaviour) -> Result<u8, PartError>
    ensures state { Gives (λ x. x) result (state_of behaviour.now (view v.now)) }
    ensures within { IfOk result (λ state. state < behaviour.now.beh.states) }
{
    match member(v, "state") {
        Ok(state) => place_in(behaviour.states(), state, List::State, 0),
        Err(_) => Ok(behaviour.start()),
    }
}

#[tactic(auto, unfolding(crate::specs::Documents::frozen_of))]
/// Reads whether a service is frozen. The default is no.
fn read_frozen(v: &Value) -> Result<bool, PartError>
    ensures { Gives (λ x. x) result (frozen_of (view v.now)) }
{
    match member(v, "frozen") {
        Ok(frozen) => looked(truth(frozen), List::Frozen, 0),
        Err(_) => Ok(false),
    }
}

#[tactic(auto, unfolding(crate::specs::Documents::rests_of))]
/// Reads whether a service rests. The default is yes, and in version 1 every service rests.
fn read_rests(v: &Value, version: u64) -> Result<bool, PartError>
    ensures { Gives (λ x. x) result (rests_of version (view v.now)) }
{
    if version == 1 {
        return Ok(true);
    }
    match member(v, "rests") {
        Ok(rests) => looked(truth(rests), List::Rests, 0),
        Err(_) => Ok(true),
    }
}

#[tactic(auto, unfolding(crate::specs::Documents::new_name_of, crate::specs::Documents::service_of))]
/// Reads one service after the given ones.
fn read_service(
    v: &Value,
    version: u64,
    catalogue: &[Behaviour],
    before: &[Service],
) -> Result<Service, PartError>
    requires { length catalogue.now ≤ MAX_BEHAVIOURS }
    ensures service { Gives (λ x. x) result (service_of version catalogue.now before.now (view v.now)) }
    ensures known { IfOk result (λ service. IsService catalogue.now service) }
    ensures new { IfOk result (λ service. place_of (map service_name before.now) service.name ≡ None) }
{
    if !v.is_object() {
        return Err(refused(Kind::Form, List::Whole, 0));
    }
    let name = read_name(v)?;
    if place_of_service(before, name.bytes()).is_some() {
        return Err(refused(Kind::Repeated, List::Name, 0));
    }
    let place = read_behaviour_place(v, catalogue)?;
    let behaviour = &catalogue[place as usize];
    let state = read_state(v, behaviour)?;
    let frozen = read_frozen(v)?;
    let rests = read_rests(v, version)?;
    Ok(Service {
        name,
        behaviour: place,
        state,
        frozen,
        rests,
    })
}

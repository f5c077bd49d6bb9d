//! Numbers and names.
ghost use Rattle.std.specs.Prelude.{◌≡◌, ◌≤◌, ◌<◌, [], length, map, min, nat_lt, slice_index, slice_index_or, unwrap_or, if◌then◌else◌};
ghost use Rattle.roman_joint.specs.Names.{beh_name, names_in, seat_name, states_of_behaviour};
ghost use Rattle.roman_model.specs.Explanation.{seat_names};
ghost use Rattle.roman_read.specs.Names.{place_of};
ghost use Rattle.roman_c.specs.Events.{numbered_name};
ghost use Rattle.roman_c.specs.Figures.{find_number, kind_from, no_number, numbered_state};

use roman_joint::Joint;
use roman_library::place_of_behaviour;
use roman_parts::NameTable;
use roman_session::Session;

/// The value that stands for no number.
pub const NO_NUMBER: u32 = u32::MAX;

/// The kind of thing that has a number.
#[derive(Clone, Copy)]
pub enum Kind {
    /// An action.
    Action,
    /// A state of the environment.
    EnvState,
    /// A state of the target.
    TargetState,
    /// A service, by its place.
    Service,
    /// A state of the service at that place.
    ServiceState(u32),
    /// A behaviour of the catalogue.
    Behaviour,
    /// A state of that behaviour.
    BehaviourState(u32),
}

/// Returns the kind with that number. `of` is the service or the behaviour that has the states.
pub(crate) fn kind_from(number: u32, of: u32) -> Option<Kind>
    ensures { result ≡ kind_from number of }
{
    if number == 0 {
        Some(Kind::Action)
    } else if number == 1 {
        Some(Kind::EnvState)
    } else if number == 2 {
        Some(Kind::TargetState)
    } else if number == 3 {
        Some(Kind::Service)
    } else if number == 4 {
        Some(Kind::ServiceState(of))
    } else if number == 5 {
        Some(Kind::Behaviour)
    } else if number == 6 {
        Some(Kind::BehaviourState(of))
    } else {
        None
    }
}

/// Returns the name of that kind and number, or no bytes if there is none.
pub(crate) fn name_of(session: &Session, kind: Kind, number: u32) -> &[u8]
    ensures name { result.now ≡ numbered_name session.now kind number }
    ensures short { length result.now ≤ 32 }
{
    let joint = session.joint();
    match kind {
        Kind::Action => table_name(joint.environment().actions(), number),
        Kind::EnvState => table_name(joint.environment().states(), number),
        Kind::TargetState => table_name(joint.target().states(), number),
        Kind::Service => service_name(joint, number),
        Kind::ServiceState(service) => service_state_name(joint, service, number),
        Kind::Behaviour => behaviour_name(joint, number),
        Kind::BehaviourState(behaviour) => behaviour_state_name(joint, behaviour, number),
    }
}

/// Returns the number of the name of that kind, or `NO_NUMBER`.
pub(crate) fn find(session: &Session, kind: Kind, name: &[u8]) -> u32
    ensures { result ≡ find_number kind name.now session.now }
{
    let joint = session.joint();
    match kind {
        Kind::Action => or_none(joint.environment().actions().find(name)),
        Kind::EnvState => or_none(joint.environment().states().find(name)),
        Kind::TargetState => or_none(joint.target().states().find(name)),
        Kind::Service => find_service(joint, name),
        Kind::ServiceState(service) => find_service_state(joint, service, name),
        Kind::Behaviour => find_behaviour(joint, name),
        Kind::BehaviourState(behaviour) => find_behaviour_state(joint, behaviour, name),
    }
}

/// Returns the present state of that kind, or `NO_NUMBER`.
pub(crate) fn state_of(session: &Session, kind: Kind) -> u32
    ensures { result ≡ numbered_state session.now kind }
{
    match kind {
        Kind::EnvState => u32::from(session.env_state()),
        Kind::TargetState => u32::from(session.target_state()),
        Kind::ServiceState(service) => service_state(session, service),
        _ => NO_NUMBER,
    }
}

/// Returns the present state of the service at that place, or `NO_NUMBER`.
fn service_state(session: &Session, service: u32) -> u32
    ensures { result ≡ (if nat_lt service (length session.now.parts.seats) then slice_index session.now.here.bs
        service else no_number) }
{
    if service < u32::from(session.joint().seats()) {
        u32::from(session.state(service as u8))
    } else {
        NO_NUMBER
    }
}

/// Returns the name with that number, or no bytes.
fn table_name(names: &NameTable, number: u32) -> &[u8]
    ensures name { result.now ≡ slice_index_or names.now number [] }
    ensures short { length result.now ≤ 32 }
{
    if number < names.len() {
        names.at(number).bytes()
    } else {
        &[]
    }
}

fn service_name(joint: &Joint, service: u32) -> &[u8]
    ensures name { result.now ≡ slice_index_or (map seat_name joint.now.seats) service [] }
    ensures short { length result.now ≤ 32 }
{
    if service < u32::from(joint.seats()) {
        joint.seat(service as u8).name.bytes()
    } else {
        &[]
    }
}

/// Returns the name of that state of the service at that place, or no bytes.
fn service_state_name(joint: &Joint, service: u32, state: u32) -> &[u8]
    ensures name { result.now ≡ slice_index_or (seat_names (names_in joint.now) service).states state [] }
    ensures short { length result.now ≤ 32 }
{
    if service < u32::from(joint.seats()) {
        table_name(joint.behaviour(service as u8).states(), state)
    } else {
        &[]
    }
}

/// Returns the name of the behaviour at that place of the catalogue, or no bytes.
fn behaviour_name(joint: &Joint, behaviour: u32) -> &[u8]
    ensures name { result.now ≡ slice_index_or (map beh_name joint.now.catalogue) behaviour [] }
    ensures short { length result.now ≤ 32 }
{
    match joint.catalogue().get(behaviour as usize) {
        Some(found) => found.name().bytes(),
        None => &[],
    }
}

/// Returns the name of that state of the behaviour at that place of the catalogue, or no bytes.
fn behaviour_state_name(joint: &Joint, behaviour: u32, state: u32) -> &[u8]
    ensures name { result.now ≡ slice_index_or (states_of_behaviour joint.now.catalogue behaviour) state [] }
    ensures short { length result.now ≤ 32 }
{
    match joint.catalogue().get(behaviour as usize) {
        Some(found) => table_name(found.states(), state),
        None => &[],
    }
}

/// Returns a number, or `NO_NUMBER`.
fn or_none(found: Option<u32>) -> u32
    ensures { result ≡ unwrap_or found no_number }
{
    found.unwrap_or(NO_NUMBER)
}

/// Returns the place of the service with that name, or `NO_NUMBER`.
fn find_service(joint: &Joint, name: &[u8]) -> u32
    ensures { result ≡ unwrap_or (place_of (map seat_name joint.now.seats) name.now) no_number }
{
    for k in 0..joint.seats() {
        if name == joint.seat(k).name.bytes() {
            return u32::from(k);
        }
    }
    NO_NUMBER
}

/// Returns the number of that state of the service at that place, or `NO_NUMBER`.
fn find_service_state(joint: &Joint, service: u32, name: &[u8]) -> u32
    ensures { result ≡ unwrap_or (place_of (seat_names (names_in joint.now) service).states name.now) no_number }
{
    if service < u32::from(joint.seats()) {
        or_none(joint.behaviour(service as u8).states().find(name))
    } else {
        NO_NUMBER
    }
}

/// Returns the place in the catalogue of the behaviour with that name, or `NO_NUMBER`.
fn find_behaviour(joint: &Joint, name: &[u8]) -> u32
    ensures { result ≡ min (unwrap_or (place_of (map beh_name joint.now.catalogue) name.now) no_number) no_number }
{
    match place_of_behaviour(joint.catalogue(), name) {
        Some(place) if place < NO_NUMBER as usize => place as u32,
        _ => NO_NUMBER,
    }
}

/// Returns the number of that state of the behaviour at that place of the catalogue, or
/// `NO_NUMBER`.
fn find_behaviour_state(joint: &Joint, behaviour: u32, name: &[u8]) -> u32
    ensures { result ≡ unwrap_or (place_of (states_of_behaviour joint.now.catalogue behaviour) name.now) no_number }
{
    match joint.catalogue().get(behaviour as usize) {
        Some(found) => or_none(found.states().find(name)),
        None => NO_NUMBER,
    }
}

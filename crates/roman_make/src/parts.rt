//! The parts of the made systems.
ghost use Rattle.std.specs.Prelude.{◌≡◌, ◌≤◌, length, map, take, IfOk, IsTrue};
ghost use Rattle.std.specs.List.{list_all};
ghost use Rattle.roman_parts.specs.Named.{IsBehaviour, IsTarget};
ghost use Rattle.roman_make.specs.Made.{floor, idle_worker, shift, worker, worker_names};
ghost use Rattle.roman_model.specs.System.{IsEnv};
ghost use Rattle.roman_read.specs.Names.{is_name};

use crate::names::{name_of, names_of};
use crate::tables::{
    ACTIONS, FLOOR_STATES, FLOOR_STEPS, SHIFT_FINALS, SHIFT_STATES, SHIFT_STEPS, WORKER_FINALS,
    WORKER_STATES, WORKER_STEPS, WORKERS,
};
use roman_guard::StateSet;
use roman_library::Service;
use roman_parts::{Behaviour, Environment, Move, Target, Triple};
use std::alloc::{AllocError, Global};

/// Makes the environment.
pub(crate) fn make_floor(alloc: Global) -> Result<Environment, AllocError>
    ensures floor { IfOk result (λ made. made ≡ floor) }
    ensures known { IfOk result (λ made. IsEnv made.env) }
{
    let states = names_of(alloc, &FLOOR_STATES)?;
    let actions = names_of(alloc, &ACTIONS)?;
    let floor = Environment::from_lists(alloc, states, actions, 0, &FLOOR_STEPS)?;
    floor.known(); // the environment is well formed
    Ok(floor)
}

/// Returns the steps of the table, each with the guard of every environment state.
fn steps_of(alloc: Global, triples: &[Triple]) -> Result<Vec<Move>, AllocError>
    ensures { IfOk result (λ steps. steps.items ≡ map (λ triple. (triple.0, 1, triple.1, triple.2)) triples.now) }
{
    let always = every_state();
    triples
        .iter()
        .map(|&(from, action, to)| (from, always, action, to))
        .collect(alloc)
}

/// Returns the set of the only environment state.
fn every_state() -> StateSet
    ensures { result ≡ 1 }
{
    StateSet::single(0)
}

/// Makes the behaviour of a worker.
pub(crate) fn make_worker(alloc: Global, env: &Environment) -> Result<Behaviour, AllocError>
    requires { env.now ≡ floor }
    ensures worker { IfOk result (λ made. made ≡ worker) }
    ensures known { IfOk result (λ made. IsBehaviour floor made) }
{
    let name = name_of(b"worker");
    let states = names_of(alloc, &WORKER_STATES)?;
    let steps = steps_of(alloc, &WORKER_STEPS)?;
    let worker = Behaviour::from_lists(alloc, name, states, 0, &WORKER_FINALS, &steps, env)?;
    worker.known(); // the behaviour is well formed
    Ok(worker)
}

/// Makes the target.
pub(crate) fn make_shift(alloc: Global, env: &Environment) -> Result<Target, AllocError>
    requires { env.now ≡ floor }
    ensures shift { IfOk result (λ made. made ≡ shift) }
    ensures known { IfOk result (λ made. IsTarget floor made) }
{
    let states = names_of(alloc, &SHIFT_STATES)?;
    let steps = steps_of(alloc, &SHIFT_STEPS)?;
    let shift = Target::from_lists(alloc, states, 0, &SHIFT_FINALS, &steps, env)?;
    shift.known(); // the target is well formed
    Ok(shift)
}

/// Makes the first `n` workers. Requires `n` at most 10.
#[tactic(auto, using(crate::proofs::PartLemmas::taken))]
pub(crate) fn make_services(alloc: Global, n: u8) -> Result<Vec<Service>, AllocError>
    requires { n ≤ 10 }
    ensures { IfOk result (λ services. services.items ≡ map idle_worker (take n worker_names)) }
{
    idle_workers(alloc, &WORKERS, n)
}

/// Makes workers with the first `n` names.
fn idle_workers(alloc: Global, names: &[&[u8]], n: u8) -> Result<Vec<Service>, AllocError>
    requires count { n ≤ length names.now }
    requires names { IsTrue (list_all (λ name. is_name name.now) names.now) }
    ensures { IfOk result (λ services. services.items ≡ map (λ name. idle_worker name.now) (take n names.now)) }
{
    let mut services = Vec::with_capacity(alloc, n as usize)?;
    for name in &names[..n as usize] {
        services.push(idle_worker(name))?;
    }
    Ok(services)
}

/// Makes a worker that is idle, isn't frozen and isn't loose.
fn idle_worker(name: &[u8]) -> Service
    requires { IsTrue (is_name name.now) }
    ensures { result ≡ idle_worker name.now }
{
    Service {
        name: name_of(name),
        behaviour: 0,
        state: 0,
        frozen: false,
        rests: true,
    }
}

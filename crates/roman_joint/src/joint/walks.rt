//! Walks backwards from a pair.
ghost use Rattle.std.specs.Prelude.{◌≡◌, ◌+◌, ◌<◌, ◌≤◌, All, length, MatchOption};
ghost use Rattle.roman_model.specs.Lists.{HoldsEachOnce};
ghost use Rattle.roman_model.specs.SystemArena.{env_prev, beh_prev};
ghost use Rattle.roman_model.specs.Arena.{back};
ghost use Rattle.roman_joint.specs.NamedSys.{system_of};
ghost use Rattle.roman_joint.specs.Walks.{goal_of, IsWalk, IsDone, TakesFirst, GoesOnUnlessDone, left, left_of_seat, left_of_target, left_of_env, left_of_action, left_of_all};
ghost use Rattle.roman_joint.specs.Pairs.{joint_pairs, arena_of};

use super::Joint;
use super::looks::first_outcome;
use crate::states::prev_states;
use crate::walk::Walk;
use roman_io::Steps;
use roman_model::MAX_STATES;
use std::sync::ledger::Ledger;

impl Joint {
    /// Begins a walk backwards from the pair `p2`. The walk takes each delegation that can lead to
    /// `p2` exactly once. Its action is allowed at its pair, and its service is ready.
    pub fn walk(&self, p2: u32) -> Walk
        requires { p2 < joint_pairs self.now }
        ensures walk { IsWalk (system_of self.now) result }
        ensures left { HoldsEachOnce (left (system_of self.now) result) (back (arena_of self.now) p2) }
    {
        self.known(); // the system is well formed
        Walk {
            pair: p2,
            action: 0,
            envs_taken: 0,
            env: 0,
            targets_taken: MAX_STATES,
            target: 0,
            seat: self.seats(),
            states_taken: 0,
        }
    }

    /// Takes the next delegation of a walk: the pair from which it leads, the action and the
    /// service. Returns `None` exactly if none is left. Counts one step for a delegation, and none
    /// for the end. Requires a walk of this joint, whose services haven't changed since.
    pub fn back<L: Ledger>(&self, walk: &mut Walk, steps: &mut Steps<L>) -> Option<(u32, u8, u8)>
        requires { IsWalk (system_of self.now) walk.old }
        ensures walk { IsWalk (system_of self.now) walk.new }
        ensures given { MatchOption result (IsDone left self.now walk.old)
            (λ d. TakesFirst self.now walk.old walk.new d.0 d.1 d.2) }
        ensures step { MatchOption result (steps.new ≡ steps.old) (λ d. steps.new ≡ steps.old + 1) }
    {
        'on: loop {
            if let Some((pair, seat)) = self.take_state(walk) {
                steps.tick();
                return Some((pair, walk.action, seat));
            }
            if !self.go_on(walk) {
                return None;
            }
        }
    }

    // Takes a state of the current service from which it goes to its state at the walk's pair. Returns
    // the pair in which it has that state, and the service.
    fn take_state(&self, walk: &mut Walk) -> Option<(u32, u8)>
        requires { IsWalk (system_of self.now) walk.old }
        ensures walk { IsWalk (system_of self.now) walk.new }
        ensures action { walk.new.action ≡ walk.old.action }
        ensures taken { MatchOption result ((walk.new ≡ walk.old) × IsDone left_of_seat self.now walk.old)
            (λ x. TakesFirst self.now walk.old walk.new x.0 walk.old.action x.1) }
    {
        self.known(); // the system is well formed, a pair's number fits in 32 bits
        let place = walk.seat;
        if place >= self.seats() {
            return None;
        }
        let shape = self.shape();
        let to = shape.part_of(walk.pair, place);
        let states = prev_states(self, place, to, walk.env, walk.action);
        let taken = walk.states_taken as usize;
        if taken >= states.len() {
            return None;
        }
        let first = first_outcome(shape, walk.pair, walk.target, place, to);
        let from = first + u32::from(walk.env) * shape.env_stride();
        let pair = from + u32::from(states[taken]) * shape.stride(place);
        walk.states_taken += 1;
        Some((pair, place))
    }

    // Moves on to the next service, state of the target, state of the environment or action, and
    // returns whether there is one. Requires that no state of the current service is left.
    fn go_on(&self, walk: &mut Walk) -> bool
        requires walk { IsWalk (system_of self.now) walk.old }
        requires seat { IsDone left_of_seat self.now walk.old }
        ensures { GoesOnUnlessDone left self.now result walk.old walk.new }
    {
        self.next_seat(walk)
            || self.next_target(walk)
            || self.next_env(walk)
            || self.next_action(walk)
    }

    // Moves on to the next service, and returns whether there is one.
    fn next_seat(&self, walk: &mut Walk) -> bool
        requires walk { IsWalk (system_of self.now) walk.old }
        requires seat { IsDone left_of_seat self.now walk.old }
        ensures { GoesOnUnlessDone left_of_target self.now result walk.old walk.new }
    {
        self.known(); // the system is well formed
        if walk.seat + 1 >= self.seats() {
            return false;
        }
        walk.seat += 1;
        walk.states_taken = 0;
        true
    }

    // Moves on to the target's next predecessor state and the first service, and returns whether there
    // is one.
    fn next_target(&self, walk: &mut Walk) -> bool
        requires walk { IsWalk (system_of self.now) walk.old }
        requires seat { IsDone left_of_seat self.now walk.old }
        requires target { IsDone left_of_target self.now walk.old }
        ensures { GoesOnUnlessDone left_of_env self.now result walk.old walk.new }
    {
        self.known(); // the system is well formed, a pair's number fits in 32 bits
        let targets = self.targets_before(walk);
        let taken = walk.targets_taken as usize;
        if taken >= targets.len() {
            return false;
        }
        walk.target = targets[taken];
        walk.targets_taken += 1;
        walk.seat = 0;
        walk.states_taken = 0;
        true
    }

    // Returns the target's predecessor states, in rising order: those from which it goes to its state
    // at the pair.
    fn targets_before(&self, walk: &Walk) -> &[u8]
        requires { IsWalk (system_of self.now) walk.now }
        ensures prev { result.now ≡ beh_prev (system_of self.now).target
            (goal_of (system_of self.now) walk.now).t walk.now.env walk.now.action }
        ensures below { All (λ t. t < (system_of self.now).target.states) result.now }
    {
        self.known(); // the target is over the environment
        let t = self.shape().target_of(walk.pair);
        self.target().into(t, walk.env, walk.action)
    }

    // Moves on to the environment's next predecessor state, at which no state of the target is taken
    // yet, and returns whether there is one.
    #[tactic(auto, using(crate::proofs::WalkLemmas::passed, crate::proofs::WalkLemmas::few_prev))]
    fn next_env(&self, walk: &mut Walk) -> bool
        requires walk { IsWalk (system_of self.now) walk.old }
        requires seat { IsDone left_of_seat self.now walk.old }
        requires target { IsDone left_of_target self.now walk.old }
        requires env { IsDone left_of_env self.now walk.old }
        ensures { GoesOnUnlessDone left_of_action self.now result walk.old walk.new }
    {
        self.known(); // the system is well formed, a pair's number fits in 32 bits
        let envs = self.envs_before(walk);
        let taken = walk.envs_taken as usize;
        if taken >= envs.len() {
            return false;
        }
        walk.env = envs[taken];
        walk.envs_taken += 1;
        walk.targets_taken = 0;
        walk.seat = self.seats();
        walk.states_taken = 0;
        true
    }

    // Returns the environment's predecessor states, in rising order: those from which it goes to its
    // state at the pair.
    fn envs_before(&self, walk: &Walk) -> &[u8]
        requires { IsWalk (system_of self.now) walk.now }
        ensures prev { result.now ≡ env_prev (system_of self.now).env
            (goal_of (system_of self.now) walk.now).e walk.now.action }
        ensures below { All (λ e. e < (system_of self.now).env.states) result.now }
    {
        self.known(); // the environment is well formed
        let e = self.shape().env_of(walk.pair);
        self.environment().prev(e, walk.action)
    }

    // Moves on to the next action, at which no state of the environment is taken yet, and returns
    // whether there is one.
    #[tactic(auto, using(crate::proofs::WalkLemmas::passed))]
    fn next_action(&self, walk: &mut Walk) -> bool
        requires walk { IsWalk (system_of self.now) walk.old }
        requires seat { IsDone left_of_seat self.now walk.old }
        requires target { IsDone left_of_target self.now walk.old }
        requires env { IsDone left_of_env self.now walk.old }
        requires action { IsDone left_of_action self.now walk.old }
        ensures { GoesOnUnlessDone left_of_all self.now result walk.old walk.new }
    {
        self.known(); // the system is well formed
        if u32::from(walk.action) + 1 >= self.environment().actions().len() {
            return false;
        }
        walk.action += 1;
        walk.envs_taken = 0;
        walk.targets_taken = MAX_STATES;
        walk.seat = self.seats();
        walk.states_taken = 0;
        true
    }
}

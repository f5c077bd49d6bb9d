//! Moves from one pair to the next.
ghost use Rattle.std.specs.Prelude.{◌≡◌, ◌<◌, IsTrue, IfSome, IfNone};
ghost use Rattle.roman_model.specs.System.{Pair, IsPair, has};
ghost use Rattle.roman_model.specs.SystemArena.{is_allowed};
ghost use Rattle.roman_joint.specs.NamedSys.{system_of};
ghost use Rattle.roman_relation.specs.Seats.{IsReadyAt};
ghost use Rattle.roman_generator.specs.Moves.{IsAllowedAt, CanMoveAt, GoesTo, MayBeObserved, MovesAt, FindsTarget, IsBefore, pair_with};
ghost use Rattle.roman_joint.specs.Pairs.{joint_pairs};

use crate::observation::Observation;
use roman_joint::Joint;

/// Returns the number of the pair that follows the pair `p` when the service `k` serves the action
/// `a` and goes to state `b2`, and the environment goes to state `e2`. Requires that the action is
/// allowed at the pair, and that the service is ready. The two states can be any numbers: returns
/// `None` exactly if no step of the system leads there. Allocates no memory.
pub fn next_pair(joint: &Joint, p: u32, a: u8, k: u8, b2: u8, e2: u8) -> Option<u32>
    requires pair { p < joint_pairs joint.now }
    requires allowed { IsAllowedAt joint.now p a }
    requires ready { IsReadyAt joint.now k }
    ensures moves { IfSome result (MovesAt joint.now p a k b2 e2) }
    ensures none { IfNone result (¬ CanMoveAt joint.now p a k b2 e2) }
{
    joint.known(); // the system is well formed
    let shape = joint.shape();
    let t = shape.target_of(p);
    let e = shape.env_of(p);
    let b = shape.part_of(p, k);
    let observation = Observation {
        action: a,
        seat: k,
        state: b2,
        env: e2,
    };
    let to = target_after(joint, t, e, b, observation)?;
    Some(shape.moved(p, to, e2, k, b2))
}

/// Returns the target's state after the action that `observation` describes. Before it, the target
/// is in state `t`, the environment in state `e`, and the services are in the given states.
/// Requires that the action is allowed there, and that its service is ready. The two states that
/// are observed can be any numbers: returns `None` exactly if no step of the system leads there.
/// Allocates no memory.
pub fn next_target(
    joint: &Joint,
    t: u8,
    e: u8,
    states: &[u8],
    observation: Observation,
) -> Option<u8>
    requires pair { IsPair (system_of joint.now) (pair_with t e states.now) }
    requires allowed { IsTrue (is_allowed (system_of joint.now) (pair_with t e states.now) observation.action) }
    requires ready { IsReadyAt joint.now observation.seat }
    ensures moves { IfSome result (GoesTo (system_of joint.now) (pair_with t e states.now) observation) }
    ensures none { IfNone result (¬ MayBeObserved (system_of joint.now) (pair_with t e states.now) observation) }
{
    target_after(joint, t, e, states[observation.seat as usize], observation)
}

// Returns the target's state after the action that `observation` describes. Before it, the target is in
// state `t`, the environment in state `e`, and the service in state `b`.
fn target_after(joint: &Joint, t: u8, e: u8, b: u8, observation: Observation) -> Option<u8>
    requires before { (p : Pair) × IsBefore (system_of joint.now) t e b observation p }
    requires ready { IsReadyAt joint.now observation.seat }
    ensures { FindsTarget (system_of joint.now) t e b observation result }
{
    joint.known(); // behaviours and the target are over the environment
    if !holds(
        joint.environment().next(e, observation.action),
        observation.env,
    ) {
        return None;
    }
    let behaviour = joint.behaviour(observation.seat);
    if !holds(behaviour.out(b, e, observation.action), observation.state) {
        return None;
    }
    joint.target().step(t, e, observation.action)
}

// Returns whether a state is one of `states`.
fn holds(states: &[u8], state: u8) -> bool
    ensures { result ≡ has states.now state }
{
    states.iter().any(|&other| other == state)
}

//! Target views: the actions that the target and the environment allow. They don't depend on
//! services.
ghost use Rattle.std.specs.Prelude.{◌≡◌, ℕ, ◌<◌, [], IsFalse, IfOk};
ghost use Rattle.roman_model.specs.Lists.{IsIn};
ghost use Rattle.roman_model.specs.SystemArena.{env_prev, beh_prev};
ghost use Rattle.roman_joint.specs.NamedSys.{TargetIsOverEnv};
ghost use Rattle.roman_joint.specs.TargetViews.{AreStates, ArePermitted, AreLeading, IsTargetView, AreTargetViews};

use roman_parts::{Environment, Target};
use roman_rules::with_bit;
use std::alloc::{AllocError, Global};

/// A state of the target and a state of the environment, with the actions that are allowed there and
/// those that can lead there.
#[derive(Clone, Copy, Debug)]
pub(crate) struct TargetView {
    pub(crate) target: u8,
    pub(crate) env: u8,
    /// The actions that are allowed there.
    pub(crate) allowed: u32,
    /// The actions that may lead there. An action outside this set doesn't lead there.
    pub(crate) leading: u32,
}

/// Makes all target views, ordered by the target's state and then by the environment's. Fails only
/// when out of memory.
pub(crate) fn all_target_views(
    alloc: Global,
    environment: &Environment,
    target: &Target,
) -> Result<Vec<TargetView>, AllocError>
    requires { TargetIsOverEnv environment.now target.now }
    ensures { IfOk result (λ target_views. AreTargetViews environment.now.env target.now.beh target_views.items) }
{
    let envs = environment.states().len();
    let count = target.states().len() * envs;
    let mut target_views = Vec::with_capacity(alloc, count as usize)?;
    for i in 0..count {
        let target_view = target_view_of(environment, target, (i / envs) as u8, (i % envs) as u8);
        target_views.push(target_view)?;
    }
    Ok(target_views)
}

/// Returns the target view of these states.
fn target_view_of(environment: &Environment, target: &Target, t: u8, e: u8) -> TargetView
    requires { AreStates environment.now target.now t e }
    ensures { IsTargetView environment.now.env target.now.beh t e result }
{
    TargetView {
        target: t,
        env: e,
        allowed: allowed_in(environment, target, t, e),
        leading: leading_to(environment, target, t, e),
    }
}

/// Returns the actions that are allowed in these states.
fn allowed_in(environment: &Environment, target: &Target, t: u8, e: u8) -> u32
    requires { AreStates environment.now target.now t e }
    ensures { ArePermitted environment.now.env target.now.beh t e result }
{
    let mut allowed = 0;
    for a in 0..environment.actions().len() as u8 {
        let is_allowed = target.allows(environment, t, e, a);
        allowed = with_bit(allowed, a, is_allowed);
    }
    allowed
}

/// Returns the actions that can lead to these states.
fn leading_to(environment: &Environment, target: &Target, t2: u8, e2: u8) -> u32
    requires { AreStates environment.now target.now t2 e2 }
    ensures { AreLeading environment.now.env target.now.beh t2 e2 result }
{
    let mut leading = 0;
    for a in 0..environment.actions().len() as u8 {
        let may_lead = may_lead(environment, target, t2, e2, a);
        leading = with_bit(leading, a, may_lead);
    }
    leading
}

/// Returns whether an action can lead to these states, from some states of the environment and the
/// target.
fn may_lead(environment: &Environment, target: &Target, t2: u8, e2: u8, a: u8) -> bool
    requires states { AreStates environment.now target.now t2 e2 }
    requires action { a < environment.now.env.actions }
    ensures { IsFalse result → (e : ℕ) → IsIn e (env_prev environment.now.env e2 a) → beh_prev target.now.beh t2 e a
        ≡ [] }
{
    for e in environment.prev(e2, a) {
        if !target.into(t2, *e, a).is_empty() {
            return true;
        }
    }
    false
}

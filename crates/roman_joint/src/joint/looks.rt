//! The actions, outcomes and finality of a pair.
ghost use Rattle.std.specs.Prelude.{◌≡◌, ℕ, ◌+◌, ◌*◌, ◌<◌, ◌≤◌, ◌∷◌, [], length, slice_index, IsTrue, IsFalse};
ghost use Rattle.roman_model.specs.Lists.{IsIn, is_empty};
ghost use Rattle.roman_model.specs.SystemArena.{beh_next};
ghost use Rattle.roman_model.specs.Numbers.{sizes_of, count, pair_at};
ghost use Rattle.roman_model.specs.declared.limits.TheConstants.{MAX_CELLS};
ghost use Rattle.roman_radix.specs.Radix.{stride_of, env_stride_of, moved_to};
ghost use Rattle.roman_joint.specs.NamedSys.{system_of};
ghost use Rattle.roman_joint.specs.TargetViews.{AreTargetViews, IsTargetView};
ghost use Rattle.roman_joint.specs.Outcomes.{outcome_number, outcome_numbers, IsPairWith};
ghost use Rattle.roman_joint.specs.Pairs.{joint_pairs, joint_pair, joint_actions, arena_of, IsAllowed};

use super::Joint;
use crate::outcomes::Outcomes;
use crate::target_view::TargetView;
use roman_radix::Shape;
use roman_rules::Rules;

impl Joint {
    /// Returns whether the target allows the action `a` at the pair `p`: whether both the target and
    /// the environment have a step by it there.
    pub fn allowed(&self, p: u32, a: u8) -> bool
        requires pair { p < joint_pairs self.now }
        requires action { a < joint_actions self.now }
        ensures { result ≡ (arena_of self.now).allows p a }
    {
        self.known(); // the system is well formed
        let t = self.shape().target_of(p);
        let e = self.shape().env_of(p);
        self.target().allows(self.environment(), t, e, a)
    }

    // Returns the target views, ordered by the target's state and then by the environment's.
    fn target_views(&self) -> &[TargetView]
        ensures { AreTargetViews (system_of self.now).env (system_of self.now).target result.now }
    {
        &self.target_views
    }

    // Returns the target view of a pair: its states of the target and the environment, and their
    // actions.
    #[tactic(auto, using(std::proofs::lemmas::Nat::div_below, crate::proofs::SplitLemmas::joint_sizes, crate::proofs::SplitLemmas::positive_of))]
    pub(crate) fn target_view_at(&self, p: u32) -> TargetView
        requires { p < joint_pairs self.now }
        ensures { let s = system_of self.now in
            IsTargetView s.env s.target (pair_at (sizes_of s) p).t (pair_at (sizes_of s) p).e result }
    {
        self.known(); // a pair's number fits in 32 bits
        self.target_views()[(p / self.shape().env_stride()) as usize]
    }

    /// Returns whether the pair `p` meets clause 2 of an ND-simulation: if the target's state is
    /// final, all services that rest are in final states.
    #[tactic(auto, using(crate::proofs::ArenaFacts::pair_count))]
    pub fn final_ok(&self, p: u32) -> bool
        requires { p < joint_pairs self.now }
        ensures { result ≡ (arena_of self.now).fine p }
    {
        let lanes = self.lanes();
        let row = self.row(p / lanes);
        (self.unfine(&row) >> (p % lanes)) & 1 != 1
    }

    /// Returns the pairs to which the action `a`, delegated to the service `k`, can lead from the
    /// pair `p`: the lists of states from which their numbers are computed. Requires that the
    /// action is allowed at the pair, and that the service is ready. The list of the service's
    /// states is empty if it has no step.
    pub fn outcomes(&self, p: u32, a: u8, k: u8) -> Outcomes<'_>
        requires pair { p < joint_pairs self.now }
        requires seat { k < length self.now.seats }
        requires allowed { IsAllowed self.now p a }
        requires ready { IsTrue ((arena_of self.now).ready k) }
        ensures numbers { (arena_of self.now).outcomes p a k ≡ outcome_numbers result }
        ensures places { (e b : ℕ) → IsIn e result.envs.now → IsIn b result.states.now
            → IsPairWith (sizes_of (system_of self.now)) k (outcome_number result e b) e b }
        ensures some { IsFalse (is_empty result.envs.now) }
        ensures few { joint_pairs self.now ≤ MAX_CELLS }
    {
        self.known(); // behaviours are over the environment, a pair's number fits in 32 bits
        let shape = self.shape();
        let e = shape.env_of(p);
        let b = shape.part_of(p, k);
        let to = self.target_after(p, e, a);
        Outcomes {
            base: first_outcome(shape, p, to, k, b),
            envs: self.environment().next(e, a),
            env_stride: shape.env_stride(),
            states: self.behaviour(k).out(b, e, a),
            stride: shape.stride(k),
        }
    }

    // Returns the target's state after the action `a` at the pair `p`. Requires that the action is
    // allowed there, and that `e` is the environment's state.
    fn target_after(&self, p: u32, e: u8, a: u8) -> u8
        requires pair { p < joint_pairs self.now }
        requires env { e ≡ (joint_pair self.now p).e }
        requires allowed { IsAllowed self.now p a }
        ensures next { beh_next self.now.target.beh (joint_pair self.now p).t e a ≡ result ∷ [] }
        ensures below { result < self.now.target.beh.states }
        ensures action { a < joint_actions self.now }
    {
        self.known(); // the target is over the environment
        let t = self.shape().target_of(p);
        self.target().step(t, e, a).unwrap()
    }
}

/// Returns the number of the pair with the states of the pair `p`, except that the target has state
/// `to`, and the environment and component `k` have state 0. Requires that component `k` has state
/// `b` at pair `p`.
pub(super) fn first_outcome(shape: &Shape, p: u32, to: u8, k: u8, b: u8) -> u32
    requires pair { p < count shape.now }
    requires target { to < shape.now.target }
    requires component { k < length shape.now.seats }
    requires state { b ≡ slice_index (pair_at shape.now p).bs k }
    ensures { (e b : ℕ) → result + e * env_stride_of shape.now + b * stride_of shape.now k
        ≡ moved_to shape.now p to e k b }
{
    shape.known(); // a pair's number fits in 32 bits
    let row = u32::from(to) * shape.target_stride() + p % shape.env_stride();
    row - u32::from(b) * shape.stride(k)
}

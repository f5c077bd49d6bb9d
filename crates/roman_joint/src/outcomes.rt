//! The pairs to which a delegation can lead.
ghost use Rattle.std.specs.Prelude.{◌≡◌, ℕ, ◌+◌, ◌*◌, ◌^◌, ◌<◌, Bool, not, All, IfSome, option_map};
ghost use Rattle.std.specs.List.{find};
ghost use Rattle.roman_model.specs.Lists.{IsIn};
ghost use Rattle.roman_joint.specs.Outcomes.{outcome_number, outcome_numbers, AllOutcomes};

/// The pairs to which an action that is delegated to a service can lead. For each state e of `envs`
/// and each state b of `states` it is the pair with the number
/// `base + e * env_stride + b * stride`. There is no pair if `states` is empty.
#[derive(Clone, Copy)]
pub struct Outcomes<'a> {
    /// The number of the pair with both states 0, if there is an outcome.
    pub base: u32,
    /// The environment's next states, in rising order.
    pub envs: &'a [u8],
    /// The difference of the numbers for neighbouring states of the environment.
    pub env_stride: u32,
    /// The service's next states, in rising order.
    pub states: &'a [u8],
    /// The difference of the numbers for neighbouring states of the service.
    pub stride: u32,
}

impl Outcomes<'_> {
    /// Returns the number of the pair with these states of the environment and the service.
    pub(crate) fn number(&self, env: u8, state: u8) -> u32
        requires { outcome_number self.now env state < 2 ^ 32 }
        ensures { result ≡ outcome_number self.now env state }
    {
        self.base + u32::from(env) * self.env_stride + u32::from(state) * self.stride
    }

    /// Returns the first states of the environment and the service whose pair isn't alive, ordered by
    /// the environment's state and then by the service's.
    pub(crate) fn first_gone<A: Fn(u32) -> bool>(&self, alive: &A) -> Option<(u8, u8)>
        requires envs { All (λ e. self.now.base + e * self.now.env_stride < 2 ^ 32) self.now.envs.now }
        requires fits { AllOutcomes self.now (λ e b. outcome_number self.now e b < 2 ^ 32) }
        requires callable { AllOutcomes self.now (λ e b. A.pre alive.now (outcome_number self.now e b)) }
        ensures among { IfSome result (λ x. IsIn x.0 self.now.envs.now × IsIn x.1 self.now.states.now) }
        ensures first { let number = outcome_number self.now in
            (gone : ℕ → Bool)
            → AllOutcomes self.now (λ e b. (r : Bool) → A.post alive.now (number e b) r → r ≡ not (gone (number e b)))
            → option_map (λ x. number x.0 x.1) result ≡ find gone (outcome_numbers self.now) }
    {
        for env in self.envs {
            let row = self.base + u32::from(*env) * self.env_stride;
            if let Some(state) = state_gone(alive, row, self.states, self.stride) {
                return Some((*env, state));
            }
        }
        None
    }
}

/// Returns the first of a service's states whose pair isn't alive. The pair with state b has the
/// number `row + b * stride`.
#[tactic(auto, using(roman_model::proofs::CallerLemmas::in_at))]
fn state_gone<A: Fn(u32) -> bool>(alive: &A, row: u32, states: &[u8], stride: u32) -> Option<u8>
    requires fits { All (λ b. row + b * stride < 2 ^ 32) states.now }
    requires callable { All (λ b. A.pre alive.now (row + b * stride)) states.now }
    ensures among { IfSome result (λ b. IsIn b states.now) }
    ensures first { (gone : ℕ → Bool)
        → All (λ b. (r : Bool) → A.post alive.now (row + b * stride) r → r ≡ not (gone (row + b * stride))) states.now
        → result ≡ find (λ b. gone (row + b * stride)) states.now }
{
    for state in states {
        if !alive(row + u32::from(*state) * stride) {
            return Some(*state);
        }
    }
    None
}

//! Computes the worst-case value of the outcomes of a delegation.
ghost use Rattle.std.specs.Prelude.{◌≡◌, ◌+◌, ◌*◌, ◌^◌, ◌<◌, All, max};
ghost use Rattle.roman_model.specs.Plans.{max_over};
ghost use Rattle.roman_joint.specs.Outcomes.{outcome_numbers};
ghost use Rattle.roman_cost.specs.Filling.{ranked, AreOutcomes, IsRanked};

use roman_joint::Outcomes;

/// Returns the greater of two numbers.
pub(crate) fn greater(a: u32, b: u32) -> u32
    ensures { result ≡ max a b }
{
    if a < b { b } else { a }
}

/// Returns the greatest value of the outcomes, or 0 if there are none.
pub(crate) fn greatest_outcome(ranks: &[u32], later: &[u32], outcomes: Outcomes<'_>) -> u32
    requires { AreOutcomes (IsRanked ranks.now later.now) outcomes }
    ensures { result ≡ max_over (ranked ranks.now later.now) (outcome_numbers outcomes.entry) }
{
    let Outcomes {
        base,
        envs,
        env_stride,
        states,
        stride,
    } = outcomes;
    let mut greatest = 0;
    for env in envs {
        let from = base + u32::from(*env) * env_stride;
        let value = greatest_state(ranks, later, from, states, stride);
        greatest = greater(greatest, value);
    }
    greatest
}

/// Returns the greatest value of the outcomes with one environment state, over the states of the
/// service, or 0 if there are none.
fn greatest_state(ranks: &[u32], later: &[u32], from: u32, states: &[u8], stride: u32) -> u32
    requires ranked { All (λ b. IsRanked ranks.now later.now (from + b * stride)) states.now }
    requires fits { All (λ b. from + b * stride < 2 ^ 32) states.now }
    ensures { result ≡ max_over (λ b. ranked ranks.now later.now (from + b * stride)) states.now }
{
    let mut greatest = 0;
    for state in states {
        let pair = from + u32::from(*state) * stride;
        let value = later[ranks[pair as usize] as usize];
        greatest = greater(greatest, value);
    }
    greatest
}

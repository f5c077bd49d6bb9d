//! Tries the failures of each service and of each two services.
ghost use Rattle.std.specs.Prelude.{◌≡◌, ℕ, ◌+◌, ◌*◌, ◌<◌, ◌≤◌, [], ◌∷◌, length, IfOk};
ghost use Rattle.roman_model.specs.Numbers.{count};
ghost use Rattle.roman_joint.specs.NamedSys.{NamedSys};
ghost use Rattle.roman_relation.specs.Greatest.{IsUpToDate};
ghost use Rattle.roman_whatif.specs.Left.{failing_places, IsIdleScratchOf};
ghost use Rattle.roman_whatif.specs.Told.{told};
ghost use Rattle.roman_whatif.specs.Losses.{told_at, left_of, MayFail, AreTold, AreLosses, AreTrialsOf, RepeatsRow};
ghost use Rattle.roman_whatif.specs.Scenarios.{left_in, AreToldIn, AreTrialsIn, CanTry, HasPair, HasTried, IsLeftIn, IsScenario, IsToldIn};
ghost use Rattle.roman_joint.specs.Pairs.{joint_pairs};

use crate::alike::{is_repeated, is_third};
use crate::failing::fail_on;
use crate::outlook::{Outlook, now};
use roman_io::Steps;
use roman_model::{PLACES, Way};
use roman_relation::Relation;
use std::alloc::{AllocError, Global};
use std::sync::ledger::Ledger;

/// The outlook in the places of a table that are not used.
const NOTHING: Outlook = Outlook {
    composes: false,
    related: 0,
    choices: 0,
};

/// The outlooks of a pair of a relation after one service or two fail, in either way.
pub struct Losses {
    /// The number of the pair in the relation from which the losses were built.
    pub pair: u32,
    /// The outlooks after services freeze. The outlook without the services at the places `k` and
    /// `j`, with `k` less than `j`, is at `32 * j + k`. The outlook without the service at place `j`
    /// alone is at `32 * j + j`.
    pub frozen: Vec<Outlook>,
    /// The outlooks after services die, at the same places as in `frozen`.
    pub gone: Vec<Outlook>,
}

// One proof step. A derived drop is a step for each vector, at each exit of a function that owns it.
impl Drop for Losses {
    fn drop(self) {
        let Losses {
            pair: _,
            frozen: _,
            gone: _,
        } = self;
    }
}

impl Losses {
    /// Tries the failures of each service and of each two services on two copies of `base`, and
    /// keeps the outlook of its pair `p` after each. If neighbouring services are alike, it tries the
    /// failure of one of them, and copies the outlook. Requires a complete list of `base`. Fails only
    /// when out of memory.
    pub fn build<L: Ledger>(
        alloc: Global,
        base: &Relation,
        p: u32,
        steps: &mut Steps<L>,
    ) -> Result<Losses, AllocError>
        requires base { IsUpToDate base.now }
        requires pair { p < joint_pairs base.now.joint }
        ensures pair { IfOk result (λ losses. losses.pair ≡ p) }
        ensures losses { IfOk result (AreLosses base.now.joint) }
    {
        let mut trials = Trials::build(alloc, base)?;
        try_both_ways(alloc, base, p, &mut trials, steps)
    }

    /// Returns the outlook after the service at place `first` fails in this way, or those at the
    /// places `first` and `second`. Requires `second` greater than `first`.
    pub fn left(&self, first: u8, second: Option<u8>, way: Way) -> Outlook
        requires { (parts : NamedSys) × AreLosses parts self.now × MayFail parts first second }
        ensures { (parts : NamedSys) → AreLosses parts self.now → MayFail parts first second →
            told result ≡ left_of parts self.now.pair way (failing_places first second) }
    {
        match way {
            Way::Freeze => entry(&self.frozen, first, second),
            Way::Die => entry(&self.gone, first, second),
        }
    }
}

/// Two copies of a relation, on which failures are tried.
#[derive(Drop)]
struct Trials {
    /// The relation without one service.
    middle: Relation,
    /// The relation without another service as well.
    scratch: Relation,
}

impl Trials {
    /// Copies a relation twice. Fails only when out of memory.
    fn build(alloc: Global, base: &Relation) -> Result<Trials, AllocError>
        requires { IsUpToDate base.now }
        ensures { IfOk result (AreTrialsOf base.now.joint) }
    {
        let middle = base.scratch(alloc)?;
        let scratch = base.scratch(alloc)?;
        Ok(Trials { middle, scratch })
    }
}

/// Returns the outlook of a table without the services at these places.
fn entry(table: &[Outlook], first: u8, second: Option<u8>) -> Outlook
    requires { (base : NamedSys) × (p : ℕ) × (way : Way) × AreTold base p way table.now × MayFail base first second }
    ensures { (base : NamedSys) (p : ℕ) (way : Way) → AreTold base p way table.now → MayFail base first second →
        told result ≡ left_of base p way (failing_places first second) }
{
    let k = first as usize;
    match second {
        None => table[PLACES * k + k],
        Some(second) => table[PLACES * second as usize + k],
    }
}

/// Tries the failures of each service and of each two services, in both ways. Fails only when out
/// of memory.
fn try_both_ways<L: Ledger>(
    alloc: Global,
    base: &Relation,
    p: u32,
    trials: &mut Trials,
    steps: &mut Steps<L>,
) -> Result<Losses, AllocError>
    requires base { HasPair base.now p }
    requires trials { AreTrialsOf base.now.joint trials.old }
    ensures pair { IfOk result (λ losses. losses.pair ≡ p) }
    ensures losses { IfOk result (AreLosses base.now.joint) }
{
    let by_freezing = Scenario {
        base,
        pair: p,
        way: Way::Freeze,
    };
    let frozen = try_all(alloc, &by_freezing, trials, steps)?;
    let by_dying = Scenario {
        base,
        pair: p,
        way: Way::Die,
    };
    let gone = try_all(alloc, &by_dying, trials, steps)?;
    Ok(Losses {
        pair: p,
        frozen,
        gone,
    })
}

/// A relation, a pair of it, and the way in which services fail.
#[derive(Clone, Copy)]
struct Scenario<'a> {
    /// The relation before the failures.
    base: &'a Relation,
    /// The number of the pair in that relation.
    pair: u32,
    /// The way in which services fail.
    way: Way,
}

/// Tries the failures of each service and of each two services. Returns the table. Fails only when
/// out of memory.
fn try_all<L: Ledger>(
    alloc: Global,
    scenario: &Scenario<'_>,
    trials: &mut Trials,
    steps: &mut Steps<L>,
) -> Result<Vec<Outlook>, AllocError>
    requires scenario { IsScenario scenario.now }
    requires trials { AreTrialsIn scenario.now trials.old }
    ensures told { IfOk result (AreToldIn scenario.now) }
    ensures trials { AreTrialsIn scenario.now trials.new }
{
    let seats = scenario.base.joint.seats();
    let mut table = vec![in alloc; NOTHING; PLACES * seats as usize]?;
    for j in 0..seats {
        fill_outlooks(scenario, j, trials, &mut table, steps);
    }
    Ok(table)
}

/// Fills in the outlooks of the service at place `j` of the table, which has those of the earlier
/// services. Copies those of the service before if the service and the two before are alike, since
/// both services then have the same outlooks.
fn fill_outlooks<L: Ledger>(
    scenario: &Scenario<'_>,
    j: u8,
    trials: &mut Trials,
    table: &mut [Outlook],
    steps: &mut Steps<L>,
)
    requires ready { CanTry scenario.now j trials.old table.old }
    requires outlooks { (i : ℕ) → i < j → IsToldIn scenario.now i table.old }
    ensures { HasTried scenario.now j table.old table.new trials.new }
{
    if is_third(scenario.base, scenario.pair, j) {
        repeat_outlooks(table, j - 1);
        return;
    }
    try_with(scenario, j, trials, table, steps);
}

/// Fills in the outlooks of the service after the one at place `before`, with copies of those of
/// that one. The outlook without that service alone is stored one place further on. The outlook
/// without it and the service before it is copied twice.
fn repeat_outlooks(table: &mut [Outlook], before: u8)
    requires some { (0 < before) × (before < 31) }
    requires room { 32 * before + 64 ≤ length table.old }
    ensures { RepeatsRow before table.old table.new }
{
    let count = before as usize;
    let from = PLACES * count;
    let to = from + PLACES;
    table.copy_within(from..from + count, to);
    table[to + count] = table[from + count - 1];
    table[to + count + 1] = table[from + count];
}

/// Tries the failure of the service at place `j`, and then the failure of each earlier service on
/// top of it. Fills in the outlooks of the service at place `j` of the table.
fn try_with<L: Ledger>(
    scenario: &Scenario<'_>,
    j: u8,
    trials: &mut Trials,
    table: &mut [Outlook],
    steps: &mut Steps<L>,
)
    requires { CanTry scenario.now j trials.old table.old }
    ensures { HasTried scenario.now j table.old table.new trials.new }
{
    let left = fail_on(
        &mut trials.middle,
        scenario.base,
        scenario.pair,
        j,
        scenario.way,
        steps,
    );
    let first = PLACES * j as usize;
    table[first + j as usize] = now(&trials.middle, left);
    for k in 0..j {
        let outlook = try_second(scenario, j, k, left, trials, table, steps);
        table[first + k as usize] = outlook;
    }
}

/// Returns the outlook after the services at the places `k` and `j` fail. In `trials`, the middle
/// is the relation without the service at place `j`, and `left` is the pair that remains there. If
/// the service at place `k` and the one before are alike, the table has the outlook already.
fn try_second<L: Ledger>(
    scenario: &Scenario<'_>,
    j: u8,
    k: u8,
    left: u32,
    trials: &mut Trials,
    table: &[Outlook],
    steps: &mut Steps<L>,
) -> Outlook
    requires scenario { IsScenario scenario.now }
    requires places { (k < j) × (j < length scenario.now.base.now.joint.seats) × (j < 32) }
    requires middle { IsLeftIn scenario.now (j ∷ []) trials.old.middle left }
    requires scratch { IsIdleScratchOf scenario.now.base.now.joint trials.old.scratch }
    requires room { length table.now ≡ 32 * length scenario.now.base.now.joint.seats }
    requires two { (i : ℕ) → i < k → told_at table.now (32 * j + i) ≡ left_in scenario.now (i ∷ j ∷ []) }
    ensures told { told result ≡ left_in scenario.now (k ∷ j ∷ []) }
    ensures middle { trials.new.middle ≡ trials.old.middle }
    ensures scratch { IsIdleScratchOf scenario.now.base.now.joint trials.new.scratch }
{
    if is_repeated(scenario.base, scenario.pair, k) {
        return table[PLACES * j as usize + k as usize - 1];
    }
    let last = fail_on(
        &mut trials.scratch,
        &trials.middle,
        left,
        k,
        scenario.way,
        steps,
    );
    now(&trials.scratch, last)
}

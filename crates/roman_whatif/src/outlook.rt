//! The outlook of a pair: whether it is related, and the numbers of related pairs and of services
//! in the masks of its system.
ghost use Rattle.std.specs.Prelude.{◌≡◌, ◌<◌, ◌↔◌, IsTrue};
ghost use Rattle.roman_model.specs.Composition.{Great};
ghost use Rattle.roman_model.specs.Numbers.{sizes_of, pair_at};
ghost use Rattle.roman_joint.specs.NamedSys.{system_of};
ghost use Rattle.roman_relation.specs.Greatest.{IsUpToDate};
ghost use Rattle.roman_whatif.specs.Told.{outlook_at, told};
ghost use Rattle.roman_joint.specs.Pairs.{joint_pairs};

use roman_relation::Relation;

/// The outlook of a pair of a system.
#[derive(Clone, Copy, Debug, PartialEq, Eq)]
pub struct Outlook {
    /// Whether the pair is related.
    pub composes: bool,
    /// The number of related pairs of the system.
    pub related: u32,
    /// The number of services in the masks of all pairs and actions together, whether the pairs are
    /// related or not. At a related pair these are the services that can be offered.
    pub choices: u64,
}

/// Returns the outlook of the pair `p` in the present system of a relation. Requires a complete
/// list. Allocates no memory.
pub fn now(relation: &Relation, p: u32) -> Outlook
    requires relation { IsUpToDate relation.now }
    requires pair { p < joint_pairs relation.now.joint }
    ensures outlook { told result ≡ outlook_at relation.now.joint p }
    ensures great { let s = system_of relation.now.joint in IsTrue result.composes ↔ Great s (pair_at (sizes_of s) p) }
{
    relation.joint.known(); // the system is well formed
    Outlook {
        composes: relation.related(p),
        related: relation.count(),
        choices: relation.choices(),
    }
}

//! The laws on certificates and explanations.

ghost use Rattle.roman_model.specs.Certificate.{GreatestIsComplete, WrittenIsGreatest};
ghost use Rattle.roman_model.specs.Explanation.{ExplanationIsLeast, ExplanationIsOrder};

/// The certificate of a complete removal list is accepted if the system has no more cells than a
/// document may allow. The verdict states the number of related pairs, and whether the start pair
/// is related.
#[tactic(auto, using(crate::proofs::CertificateLaws::written_is_greatest))]
pub fn written_is_greatest()
    ensures greatest { WrittenIsGreatest }
{}

/// If the system has no more cells than a document may allow, an accepted certificate is a complete
/// removal list. The verdict states the number of related pairs, and whether the start pair is
/// related.
pub fn greatest_is_complete()
    ensures complete { GreatestIsComplete }
{}

/// The explanation of a listed pair is the least set that holds its entry and, with each entry, the
/// entries of its defeating answers. It is a removal list by itself, and ends with the entry of the
/// pair.
pub fn explanation_is_least()
    ensures least { ExplanationIsLeast }
    ensures explained { ExplanationIsOrder }
{}

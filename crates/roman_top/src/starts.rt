//! The start of a session.
ghost use Rattle.roman_top.specs.Sessions.{StartsAreKnown};

/// Law: a session of an accepted document within its limit starts in a well-formed situation.
pub fn starts_are_known()
    ensures known { StartsAreKnown }
{}

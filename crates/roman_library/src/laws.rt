//! Laws over the definitions of documents. Each law is the contract of a function with an empty body.

ghost use Rattle.roman_library.specs.Known.{LibrariesAreKnown};
ghost use Rattle.roman_library.specs.Targets.{TargetsAreCombined, AcceptedNameTargets};

/// Each accepted document means a well-formed library. Its parts are over one environment, each of
/// whose states and actions has a name. Its numbers are in range, and the limits hold. No two of its
/// behaviours, and no two of its services, have the same name.
pub fn libraries_are_known()
    ensures known { LibrariesAreKnown }
{}

/// An accepted document of version 3 names an environment, behaviours and targets, and its library
/// has the parts that combine them.
pub fn targets_are_combined()
    ensures named { AcceptedNameTargets }
    ensures combined { TargetsAreCombined }
{}

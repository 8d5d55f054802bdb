//! Laws of the leaves, each the contract of a function without parameters.
ghost use Rattle.wl_match.specs.Followed.{FollowsOn, NeverEmpty};
ghost use Rattle.wl_match.specs.Literals.{OneLeaf};

/// Where a part of a pattern fails, a failed leaf stands; where it binds, the leaves of what follows stand in its place.
pub fn leaves_follow()
    ensures { FollowsOn }
{}

/// A search has a leaf.
pub fn leaves_are_some()
    ensures { NeverEmpty }
{}

/// An expression without a pattern, whose heads have no flags, matches itself alone, with one leaf.
pub fn literals_have_one_leaf()
    ensures { OneLeaf }
{}

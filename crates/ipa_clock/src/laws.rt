//! The laws of cuts. Each function does nothing: its contract is the law.
ghost use Rattle.ipa_clock.specs.Laws.{BelowIsReflexive, BelowIsTransitive, BelowIsAntisymmetric, EmptyIsBelow, JoinedIsLeast, JoinedIsCommutative, JoinedIsAssociative, JoinedIsIdempotent, CoveredIsCovers, CoversFollowsBelow, CoversOfJoined, CoversOfRaised};

/// Below is a partial order of cuts, and the empty cut is its least.
pub fn below_is_a_partial_order()
    ensures reflexive { BelowIsReflexive }
    ensures transitive { BelowIsTransitive }
    ensures antisymmetric { BelowIsAntisymmetric }
    ensures empty { EmptyIsBelow }
{}

/// The joined cut is the least that both are below, and cuts may be joined in any order, and more than once.
pub fn joined_is_the_least_above()
    ensures least { JoinedIsLeast }
    ensures commutative { JoinedIsCommutative }
    ensures associative { JoinedIsAssociative }
    ensures idempotent { JoinedIsIdempotent }
{}

/// The test of what a cut covers passes just on that. What a cut covers, each cut above it covers. The joined cut covers what one of the two covers, and the
/// raised cut covers one transaction more.
pub fn covers_follows_below()
    ensures test { CoveredIsCovers }
    ensures above { CoversFollowsBelow }
    ensures joined { CoversOfJoined }
    ensures raised { CoversOfRaised }
{}

// Theorems about all ring claims, each the contract of a function.
ghost use Rattle.ring_claims.specs.Laws.{RingSays, RingSets, SameTurned, RingTells, RingDecided, NextToItself, OneRingClaim};

/// A ring claim holds of a word exactly if the row claim as which it is read does.
pub fn ring_says() -> bool
    ensures { RingSays }
{
    true
}

/// The row claim is about the same sets.
pub fn ring_sets_stand() -> bool
    ensures { RingSets }
{
    true
}

/// A turned ring gets the same answer for every ring claim.
pub fn same_turned() -> bool
    ensures { SameTurned }
{
    true
}

/// The claims made of a ring claim tell of rings, however long.
pub fn ring_tells() -> bool
    ensures { RingTells }
{
    true
}

/// It can be told of every ring claim and every ring whether it holds.
pub fn ring_decided() -> bool
    ensures { RingDecided }
{
    true
}

/// A set is next to itself only in a ring of one.
pub fn next_to_itself() -> bool
    ensures { NextToItself }
{
    true
}

/// Bytes say at most one ring claim.
pub fn one_ring_claim() -> bool
    ensures { OneRingClaim }
{
    true
}

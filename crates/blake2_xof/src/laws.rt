//! Keys that are derived from a key: the law that different derivations are hashes of different
//! inputs.

ghost use Rattle.blake2_simd.specs.Family.{Family, blake2b, blake2s};
ghost use Rattle.blake2_xof.specs.Xof.{DerivationsDiffer};

/// States the law that two derivations of BLAKE2Xb hash the same only if they have the same key,
/// context and length.
pub fn derivations_differ_blake2xb()
    ensures { DerivationsDiffer blake2b }
{}

/// States the same law of BLAKE2Xs.
pub fn derivations_differ_blake2xs()
    ensures { DerivationsDiffer blake2s }
{}

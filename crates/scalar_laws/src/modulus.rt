//! Moduli.
ghost use Rattle.std.specs.Prelude.{◌≤◌, ◌^◌, ℕ};

/// A modulus from 2 to 2^63, as a type.
pub trait Modulus: Copy + Eq {
    ghost VALUE: { ℕ };

    const VALUE: u64;

    ghost at_least: { 2 ≤ VALUE };

    ghost at_most: { VALUE ≤ 2 ^ 63 };
}

/// The modulus 1000.
#[derive(Clone, Copy, Debug, PartialEq, Eq)]
pub struct Mod1000;

impl Modulus for Mod1000 {
    ghost use Rattle.std.proofs.Common.{lit≤};

    ghost VALUE = { 1000 };

    const VALUE: u64 = 1000;

    ghost at_least = { lit≤ tt };

    ghost at_most = { lit≤ tt };
}

/// The modulus 2^63.
#[derive(Clone, Copy, Debug, PartialEq, Eq)]
pub struct Mod2To63;

impl Modulus for Mod2To63 {
    ghost use Rattle.std.proofs.Common.{lit≤};

    ghost VALUE = { 9223372036854775808 };

    const VALUE: u64 = 9223372036854775808;

    ghost at_least = { lit≤ tt };

    ghost at_most = { lit≤ tt };
}

//! Numbers modulo a number.
ghost use Rattle.std.specs.Prelude.{◌≡◌, ◌<◌, ⊤};

use crate::Modulus;
use std::alloc::AllocError;
use std::marker::PhantomData;

/// A number modulo `M::VALUE` (modular arithmetic, the standard term), kept as the number below it.
///
/// Each value of a file has one, the number below the modulus that is congruent to it. `top` is the greater of the two
/// numbers that are kept, and none is ever over. In a message it is the number in 8 bytes, the lowest first, and 24 zero
/// bytes; of any bytes the first 8 are reduced.
#[derive(Copy, Debug, PartialEq, Eq)]
pub struct Residue<M: Modulus> {
    value: u64,
    modulus: PhantomData<M>,
    ghost below: { value < M.VALUE },
}

impl<M: Modulus> Clone for Residue<M> {
    ghost is_clone = { λ a b. b ≡ a };

    ghost is_infallible = { λ _. ⊤ };

    fn clone(&self) -> Result<Residue<M>, AllocError> {
        Ok(*self)
    }
}

impl<M: Modulus> Residue<M> {
    ghost use Rattle.std.specs.Prelude.{◌%◌};
    ghost use Rattle.scalar_laws.specs.Residue.{value_of};

    /// The number modulo `M::VALUE`.
    pub fn new(v: u64) -> Residue<M>
        ensures { value_of result ≡ v % M.VALUE }
    {
        Residue {
            value: v % M::VALUE,
            modulus: PhantomData,
        }
    }

    /// The number below the modulus.
    #[inline]
    pub(crate) fn value(self) -> u64
        ensures number { result ≡ value_of self }
        ensures below { result < M.VALUE }
    {
        self.value
    }
}

//! Numbers modulo a number as a kind of number.
ghost use Rattle.scalar_laws.specs.Residue.{residue_semiring, residue_conversions};
ghost use Rattle.scalar_laws.specs.ResidueLaws.{residue_laws, residue_conversion_laws, residue_equal};

use crate::{Modulus, Residue, Scalar};

impl<M: Modulus> Scalar for Residue<M> {
    ghost semiring = { residue_semiring M.at_least };

    ghost conversions = { residue_conversions M.at_least };

    fn zero() -> Residue<M> {
        Residue::new(0)
    }

    fn one() -> Residue<M> {
        Residue::new(1)
    }

    #[inline]
    fn add(self, other: Residue<M>) -> Residue<M> {
        Residue::new(self.value() + other.value())
    }

    #[inline]
    fn mul(self, other: Residue<M>) -> Residue<M> {
        let product = self.value() as u128 * other.value() as u128;
        Residue::new((product % M::VALUE as u128) as u64)
    }

    fn top(self, other: Residue<M>) -> Residue<M> {
        if self.value() < other.value() {
            other
        } else {
            self
        }
    }

    fn of_file(value: i128) -> Option<Residue<M>> {
        Some(Residue::new(value.rem_euclid(M::VALUE as i128) as u64))
    }

    fn to_wire(self) -> [u8; 32] {
        let mut bytes = [0; 32];
        bytes[..8].copy_from_slice(&self.value().to_le_bytes());
        bytes
    }

    fn of_wire(bytes: [u8; 32]) -> Residue<M> {
        let mut value = [0; 8];
        value.copy_from_slice(&bytes[..8]);
        Residue::new(u64::from_le_bytes(value))
    }

    fn is_over(self) -> bool {
        false
    }

    fn shown(self) -> Option<i128> {
        Some(self.value() as i128)
    }

    ghost laws = { residue_laws M.at_least };

    ghost conversion_laws = { residue_conversion_laws M.at_least M.at_most };

    ghost equal = { residue_equal };
}

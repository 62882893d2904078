//! Weighed numbers.
ghost use Rattle.std.specs.Prelude.{◌≡◌, ◌*◌, true, min};
ghost use Rattle.scalar_laws.specs.Number.{over_weight};
ghost use Rattle.scalar_laws.specs.Stored.{is_stored};

/// The greatest weight, 2^127 - 1.
const MAX_WEIGHT: u128 = 170141183460469231731687303715884105727;

/// The weight that stands for Over, 2^128 - 1. A sum with it exceeds the limit, and so does a
/// product with it, unless the other weight is 0.
const OVER_WEIGHT: u128 = 340282366920938463463374607431768211455;

/// The product of two weights, or 2^128 - 1 where it exceeds that. Weights below 2^64 take one multiplication.
#[inline]
fn product_of(a: u128, b: u128) -> u128
    ensures { result ≡ min (a * b) over_weight }
{
    if a.max(b) <= u64::MAX as u128 {
        (a as u64) as u128 * (b as u64) as u128
    } else {
        a.saturating_mul(b)
    }
}

/// An integer of 128 bits with the sum of the magnitudes that it came from, or Over: more than
/// the limit of 2^127 - 1 on the weight. Weighed numbers are this project's own.
///
/// Sums and products act on value and weight alike, so whether a result is Over depends on the
/// weights alone, and neither on the order of the terms nor on how they cancel.
///
/// Of a file it takes each value but -2^127, with its magnitude as the weight. `top` is the greater magnitude with the
/// greater weight. In a message it is the value and then the weight, each in 16 bytes, the lowest first; Over is value 0
/// with weight 2^128 - 1, and bytes that hold no number are Over.
#[derive(Clone, Copy, Debug, PartialEq, Eq)]
pub struct Weighed {
    value: i128,
    weight: u128,
    ghost valid: { is_stored value weight ≡ true },
}

impl Weighed {
    ghost use Rattle.std.specs.Prelude.{◌↔◌, IsNone, IfSome};
    ghost use Rattle.scalar_laws.specs.Weighed.{num_of};
    ghost use Rattle.scalar_laws.specs.Number.{number, over, new_number, plus as plus_numbers, times as times_numbers, top as top_numbers, number_bytes, number_of_bytes};

    /// More than the limit.
    fn over() -> Weighed
        ensures { num_of result ≡ over }
    {
        Weighed {
            value: 0,
            weight: OVER_WEIGHT,
        }
    }

    /// The pair; Over where the weight exceeds 2^127 - 1 or is below the magnitude of the value.
    pub fn new(value: i128, weight: u128) -> Weighed
        ensures { num_of result ≡ new_number value weight }
    {
        if weight <= MAX_WEIGHT && value.unsigned_abs() <= weight {
            Weighed { value, weight }
        } else {
            Weighed::over()
        }
    }

    /// The value and the weight; None exactly for Over.
    pub fn parts(self) -> Option<(i128, u128)>
        ensures over { IsNone result ↔ (num_of self ≡ over) }
        ensures pair { IfSome result (λ pair. num_of self ≡ number pair.0 pair.1) }
    {
        if self.weight <= MAX_WEIGHT {
            Some((self.value, self.weight))
        } else {
            None
        }
    }

    /// The sum of the values with the sum of the weights; Over where that exceeds the limit, or
    /// where a term is Over.
    #[inline]
    pub(crate) fn plus(self, other: Weighed) -> Weighed
        ensures { num_of result ≡ plus_numbers (num_of self) (num_of other) }
    {
        let weight = self.weight.saturating_add(other.weight);
        if weight > MAX_WEIGHT {
            return Weighed::over();
        }
        Weighed {
            value: self.value + other.value,
            weight,
        }
    }

    /// The product of the values with the product of the weights; Over where that exceeds the
    /// limit. Over times zero is zero, and Over times any other number is Over.
    #[inline]
    pub(crate) fn times(self, other: Weighed) -> Weighed
        ensures { num_of result ≡ times_numbers (num_of self) (num_of other) }
    {
        let weight = product_of(self.weight, other.weight);
        if weight > MAX_WEIGHT {
            return Weighed::over();
        }
        Weighed {
            value: self.value * other.value,
            weight,
        }
    }

    /// The greater magnitude with the greater weight; Over where one of the two is Over.
    pub(crate) fn greatest(self, other: Weighed) -> Weighed
        ensures { num_of result ≡ top_numbers (num_of self) (num_of other) }
    {
        let weight = self.weight.max(other.weight);
        if weight <= MAX_WEIGHT {
            let magnitude = self.value.unsigned_abs().max(other.value.unsigned_abs());
            Weighed {
                value: magnitude as i128,
                weight,
            }
        } else {
            Weighed::over()
        }
    }

    /// Value and weight in 16 bytes each, the lowest byte first.
    pub(crate) fn bytes(self) -> [u8; 32]
        ensures { result ≡ number_bytes (num_of self) }
    {
        let mut bytes = [0; 32];
        bytes[..16].copy_from_slice(&self.value.to_le_bytes());
        bytes[16..].copy_from_slice(&self.weight.to_le_bytes());
        bytes
    }

    /// The pair that the bytes hold; Over where it is no number.
    pub(crate) fn of_bytes(bytes: [u8; 32]) -> Weighed
        ensures { num_of result ≡ number_of_bytes bytes }
    {
        let mut value = [0; 16];
        value.copy_from_slice(&bytes[..16]);
        let mut weight = [0; 16];
        weight.copy_from_slice(&bytes[16..]);
        Weighed::new(i128::from_le_bytes(value), u128::from_le_bytes(weight))
    }
}

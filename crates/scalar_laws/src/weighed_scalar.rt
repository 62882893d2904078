//! Weighed numbers as a kind of number.
ghost use Rattle.std.specs.Prelude.{◌≡◌};
ghost use Rattle.scalar_laws.specs.Weighed.{weighed_semiring, weighed_conversions};
ghost use Rattle.scalar_laws.specs.WeighedLaws.{weighed_laws, weighed_conversion_laws, weighed_equal};

use crate::{Scalar, Weighed};

impl Scalar for Weighed {
    ghost semiring = { weighed_semiring };

    ghost conversions = { weighed_conversions };

    fn zero() -> Weighed {
        Weighed::new(0, 0)
    }

    fn one() -> Weighed {
        Weighed::new(1, 1)
    }

    #[inline]
    fn add(self, other: Weighed) -> Weighed {
        self.plus(other)
    }

    #[inline]
    fn mul(self, other: Weighed) -> Weighed {
        self.times(other)
    }

    fn top(self, other: Weighed) -> Weighed {
        self.greatest(other)
    }

    fn of_file(value: i128) -> Option<Weighed> {
        if value == i128::MIN {
            None
        } else {
            Some(Weighed::new(value, value.unsigned_abs()))
        }
    }

    fn to_wire(self) -> [u8; 32] {
        self.bytes()
    }

    fn of_wire(bytes: [u8; 32]) -> Weighed {
        Weighed::of_bytes(bytes)
    }

    fn is_over(self) -> bool {
        self.parts().is_none()
    }

    fn shown(self) -> Option<i128> {
        match self.parts() {
            Some((value, _)) => Some(value),
            None => None,
        }
    }

    ghost laws = { weighed_laws };

    ghost conversion_laws = { weighed_conversion_laws };

    ghost equal = { weighed_equal };
}

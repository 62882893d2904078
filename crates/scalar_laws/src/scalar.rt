//! What generic code asks of a number.
ghost use Rattle.std.specs.Prelude.{◌≡◌, true};
ghost use Rattle.scalar_laws.specs.Semiring.{Semiring, IsSemiring};
ghost use Rattle.scalar_laws.specs.Conversions.{Conversions, AreConversions};

/// A commutative semiring (the standard term) whose elements are read from files, shown, and
/// written into messages of 32 bytes. No call takes memory.
pub trait Scalar: Copy + Eq {
    ghost semiring: { Semiring Self };

    ghost conversions: { Conversions Self };

    /// The neutral element of `add`, with which every product is itself.
    fn zero() -> Self
        ensures { result ≡ semiring.nought };

    /// The neutral element of `mul`.
    fn one() -> Self
        ensures { result ≡ semiring.one };

    /// The sum.
    fn add(self, other: Self) -> Self
        ensures { result ≡ semiring.plus self other };

    /// The product.
    fn mul(self, other: Self) -> Self
        ensures { result ≡ semiring.times self other };

    /// The greater of two, in the sense of the kind: what the largest-magnitude combine mode keeps.
    fn top(self, other: Self) -> Self
        ensures { result ≡ semiring.top self other };

    /// The number of an integer of a file; None where the kind has none for it.
    fn of_file(value: i128) -> Option<Self>
        ensures { result ≡ conversions.of_file value };

    /// The 32 bytes that stand for the number in a message.
    fn to_wire(self) -> [u8; 32]
        ensures { result ≡ conversions.to_wire self };

    /// The number of any 32 bytes; those of a number give it back.
    fn of_wire(bytes: [u8; 32]) -> Self
        ensures { result ≡ conversions.of_wire bytes };

    /// Whether it is more than the kind can hold.
    fn is_over(self) -> bool
        ensures { result ≡ conversions.is_over self };

    /// The integer that is printed; None exactly where `is_over`.
    fn shown(self) -> Option<i128>
        ensures { result ≡ conversions.shown self };

    ghost laws: { IsSemiring semiring };

    ghost conversion_laws: { AreConversions conversions };

    ghost equal: { (a b : Self) → Self.eq a b ≡ true → a ≡ b };
}

//! Why a Matrix Market file is refused.

use std::alloc::{AllocError, AllocFailed};
use thiserror::Error;

/// Why a file is refused. Lines are counted from 1.
#[derive(Debug, Drop, Error)]
pub enum MmFault {
    /// A read failed.
    #[error("ReadFault")]
    ReadFault,
    /// Line 1 does not begin with the word `%%MatrixMarket`.
    #[error("NoBanner")]
    NoBanner,
    /// The banner has not five words, or one that is not in its list.
    #[error("BadBanner")]
    BadBanner,
    /// A field of numbers that are not whole, or an array file without numbers.
    #[error("UnsupportedField")]
    UnsupportedField,
    /// A symmetry that the form or the field does not have here.
    #[error("UnsupportedSymmetry")]
    UnsupportedSymmetry,
    /// The file has the other form.
    #[error("WrongForm")]
    WrongForm,
    /// The size line is missing or wrong, or a size is above its limit.
    #[error("BadSize")]
    BadSize,
    /// An entry has a wrong number of words, or a word that is no number of its kind.
    #[error("BadLine")]
    BadLine { line: u32 },
    /// An entry's row or column is 0 or above the size.
    #[error("OutOfRange")]
    OutOfRange { line: u32 },
    /// A symmetric file whose sizes differ.
    #[error("NotSquare")]
    NotSquare,
    /// An entry on the diagonal of a skew-symmetric file.
    #[error("SkewDiagonal")]
    SkewDiagonal { line: u32 },
    /// The file ends after `have` entries, and more were announced.
    #[error("TooFew")]
    TooFew { have: u32 },
    /// A further entry after those that were announced.
    #[error("Extra")]
    Extra { line: u32 },
    /// A value's magnitude is above 2^127 - 1.
    #[error("NumberTooWide")]
    NumberTooWide { line: u32 },
    /// More entries are announced than there is room for.
    #[error("TooManyEntries")]
    TooManyEntries,
    /// The file has more than 536,870,912 bytes, and no line that ends within them has a fault.
    #[error("TooLong")]
    TooLong,
    /// Memory ran out.
    #[error("NoMem")]
    NoMem,
}

impl From<AllocError> for MmFault {
    ghost use Rattle.std.specs.Prelude.{◌≡◌};
    ghost use Rattle.mm_text.specs.declared.fault.MmFault.TheVariants.{NoMem};

    ghost from_gives = { λ _ e. e ≡ NoMem };

    fn from(_e: AllocError) -> MmFault {
        MmFault::NoMem
    }
}

impl<T: Drop> From<AllocFailed<T>> for MmFault {
    ghost use Rattle.std.specs.Prelude.{◌≡◌};
    ghost use Rattle.mm_text.specs.declared.fault.MmFault.TheVariants.{NoMem};

    ghost from_gives = { λ _ e. e ≡ NoMem };

    fn from(_e: AllocFailed<T>) -> MmFault {
        MmFault::NoMem
    }
}

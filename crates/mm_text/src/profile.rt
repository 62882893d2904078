//! The form and the limits of the files that are read.

use crate::Form;

/// The most bytes of a file.
pub(crate) const MOST_BYTES: usize = 536_870_912;

/// The most rows that a caller may allow.
pub(crate) const MOST_ROWS: u64 = 1_099_511_627_776;

/// The most columns of a file, and the most rows that a caller may allow for an array.
pub(crate) const MOST_COLS: u64 = 16_777_216;

/// The greatest magnitude of a value: 2^127 - 1.
pub(crate) const WIDEST: u128 = 170141183460469231731687303715884105727;

/// The form that is wanted, and the most bytes, entries, rows and columns.
#[derive(Clone, Copy, PartialEq, Eq)]
pub struct Profile {
    pub form: Form,
    pub bytes: usize,
    pub entries: u32,
    pub rows: u64,
    pub cols: u64,
}

impl Profile {
    ghost use Rattle.std.specs.Prelude.{◌≡◌};
    ghost use Rattle.mm_text.specs.Limits.{profile_of};

    /// The profile with this form, room for so many entries, and so many rows.
    pub(crate) fn new(want: Form, room: u32, most: u64) -> Profile
        ensures { result ≡ profile_of want room most }
    {
        Profile {
            form: want,
            bytes: MOST_BYTES,
            entries: room,
            rows: most,
            cols: MOST_COLS,
        }
    }
}

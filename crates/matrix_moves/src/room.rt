//! Whether a letter of rows has room in memory.
ghost use Rattle.std.specs.Prelude.{◌≡◌, true, IsTrue, length, nat_lt};
ghost use Rattle.std.specs.List.{list_all};
ghost use Rattle.distributor.specs.Packed.{sent_entries};
ghost use Rattle.matrix_moves.specs.Sources.{IsShort};

use distributor::DistSource;
use scalar_laws::Scalar;

/// The most cells, and the most rows, of a letter.
const MOST: u64 = 72_057_594_037_927_936;

/// Each row has fewer places than these.
const PLACES: u64 = 4_294_967_296;

/// Whether the entries at these positions are few enough for the length of a letter: each has fewer than 2^32 cells, and all
/// together have at most 2^56.
pub(crate) fn is_short<S: Scalar, A: DistSource<S>>(source: &A, list: &[u32]) -> bool
    requires known { list_all (λ p. nat_lt p (length (A.entries source.now))) list.now ≡ true }
    ensures short { IsTrue result → IsShort (sent_entries (A.entries source.now) list.now) }
{
    if list.len() as u64 > MOST {
        return false;
    }
    let mut cells = 0;
    for lid in list {
        let count = source.count(*lid);
        if count >= PLACES {
            return false;
        }
        if cells + count > MOST {
            return false;
        }
        cells += count;
    }
    true
}

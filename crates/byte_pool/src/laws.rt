//! Theorems over pools, each the contract of a function that does nothing.
ghost use Rattle.byte_pool.specs.Laws.{SizesAndLeasesDecide, RoomIsGivenBack, OneLeaseIsWritten, RoomOfItsLength, FullStaysFull};

/// A pool is its sizes and its leases, so what was lent and given back leaves it as it was.
pub fn room_is_given_back()
    ensures decide { SizesAndLeasesDecide }
    ensures back { RoomIsGivenBack }
{}

/// What is written through `bytes_mut` is the bytes of this lease, and no other lease changes.
pub fn one_lease_is_written()
    ensures { OneLeaseIsWritten }
{}

/// Where each lease has the length of a block that was reserved for it, and no more are live than were reserved, there
/// is always room for the next, without memory.
pub fn room_is_enough()
    ensures room { RoomOfItsLength }
    ensures kept { FullStaysFull }
{}

//! Laws over the definitions, each the contract of a function that does nothing.
ghost use Rattle.distributor.specs.Rounds.{LettersFindRoom, BlocksAreFreeAgain};

/// In a pool whose leases each have the length of their block there is room for a letter where fewer letters of its
/// length are out than blocks of this length were reserved: so where `Transfer::ready` reserved a block for each rank, and
/// the letter to a rank is given back before the next one to it is packed, packing never lacks room.
pub fn letters_find_room()
    ensures { LettersFindRoom }
{}

/// A block that is lent and then given back leaves the pool as it was, so it has as many spare blocks of each size.
pub fn blocks_are_free_again()
    ensures { BlocksAreFreeAgain }
{}

//! The laws of shares. Each function has an empty body: what it proves is its contract.
ghost use Rattle.rank_share.specs.Laws.{SharesHaveCells, SharesHavePlaces};

/// Whoever has a rank's share alone has its pieces of the given values: of a vector and of parts the cells of its list,
/// each the sum of its lines or zero, and of a matrix the matrix of the entries that are dealt to it.
pub fn shares_have_pieces<S>()
    ensures cells { SharesHaveCells S }
    ensures places { SharesHavePlaces S }
{}

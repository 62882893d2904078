//! The laws of sums and of matrices. Each function has an empty body: what it proves is its contract, which holds
//! for every kind of value and every commutative semiring of numbers.

ghost use Rattle.tables.specs.Laws.{SumsTakeAnyOrder, ArrivalsAddUp, CellsTakeAnyOrder, ListsAddUp, OneCellIsOnePlace};
ghost use Rattle.tables.specs.Laws.{OrderedCellsAreFound, OrderedCellsAreUnique, ListingIsOrdered, ListingHasPlaces, ListingIsUnique, ListingIsTested};
ghost use Rattle.tables.specs.Laws.{FirstListDecides, BlocksAreOrdered, BlocksAreWhole, OwnedBlockIsListed, DealtLinesAddUp, DealtCellsAddUp, OwnedRowsAddUp, EditIsOnePlace, EditIsOrdered, ChosenRowsAreKept, ChosenRowsAddUp};

/// The sum over a list depends on its elements, and not on their order.
pub fn sums_take_any_order<A, B>()
    ensures { SumsTakeAnyOrder A B }
{}

/// The sum over the ranks that were heard, in any order of arrival, is the sum over all ranks, where the others have
/// nothing to join.
pub fn arrivals_add_up<B>()
    ensures { ArrivalsAddUp B }
{}

/// The matrix of a list of cells: it does not depend on their order, that of two lists is the sum of both, and one
/// more cell changes one place.
pub fn cells_add_up<S>()
    ensures order { CellsTakeAnyOrder S }
    ensures lists { ListsAddUp S }
    ensures one { OneCellIsOnePlace S }
{}

/// Cells that ascend strictly by row and then column: their matrix has at each place the number that is found there,
/// and no other cells in order have the same matrix.
pub fn ordered_cells_are_their_matrix<S>()
    ensures sum { OrderedCellsAreFound S }
    ensures only { OrderedCellsAreUnique S }
{}

/// The cells of a matrix by row and then column: they are in order and within its size, they have its places and no
/// others, they are the only such list, and a test of their numbers is a test of its places.
pub fn cells_are_listed<S>()
    ensures order { ListingIsOrdered S }
    ensures places { ListingHasPlaces S }
    ensures only { ListingIsUnique S }
    ensures test { ListingIsTested S }
{}

/// Blocks of consecutive rows, as ranks own them: their cells in order, one block after the other, are the cells of
/// the whole matrix in order.
pub fn blocks_are_joined<S>()
    ensures first { FirstListDecides S }
    ensures order { BlocksAreOrdered S }
    ensures whole { BlocksAreWhole S }
    ensures owned { OwnedBlockIsListed S }
{}

/// Dealing: where line k goes to rank k mod P, the matrices of the ranks add up to the matrix of all lines.
pub fn dealt_parts_add_up<A, S>()
    ensures lines { DealtLinesAddUp A S }
    ensures cells { DealtCellsAddUp S }
{}

/// Owners: where each row that has a place is owned by one of the ranks, the rows of the ranks add up to the matrix.
pub fn owned_rows_add_up<S>()
    ensures { OwnedRowsAddUp S }
{}

/// Cells in order of which one is put in or given another number: one place of what is found changes, and they stay
/// in order.
pub fn edits_change_one_place<S>()
    ensures place { EditIsOnePlace S }
    ensures order { EditIsOrdered S }
{}

/// The rows that pass a test: those of a list of cells are the cells of these rows, and those of a sum are the sum of
/// these rows.
pub fn rows_are_chosen<S>()
    ensures cells { ChosenRowsAreKept S }
    ensures sum { ChosenRowsAddUp S }
{}

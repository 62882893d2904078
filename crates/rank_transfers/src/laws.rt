//! Laws over transfers, each the contract of a function that does nothing.
ghost use Rattle.rank_transfers.specs.JobLetters.{LettersAreContent, LettersAreRows, LettersAreTables};
ghost use Rattle.rank_transfers.specs.JobLocals.{CopiesAreGathered, LocalExportsAreMade, LocalImportsAreMade, LocalMovesAreMade, LocalSpreadsAreMade, LocalTransfersAreUnsent, NothingComesByLocals};
ghost use Rattle.rank_transfers.specs.JobMoves.{ExportsAreBegun, ImportsAreBegun, MovesAreBegun, SpreadsAreBegun};
ghost use Rattle.rank_transfers.specs.JobRows.{ExportsAreSent, ExportsCanBegin, ExportsCome, ImportsCanBegin, OwnExportsAreBrought, OwnRowsAreBrought, RowsAreSent, RowsCome};

use scalar_laws::Scalar;

/// A plan with the lists of an import of a valid job is one that a vector can be begun by. The rows that it sends, those that
/// come and those that stay are the rows of the job's transfer.
pub fn imports_serve_jobs<S>()
    ensures can_begin { ImportsCanBegin }
    ensures sent { RowsAreSent }
    ensures come { RowsCome }
    ensures own { OwnRowsAreBrought S }
{}

/// The same of a plan with the lists of an export: rows go to their owners, and those stay that the rank has and owns.
pub fn exports_serve_jobs<S>()
    ensures can_begin { ExportsCanBegin }
    ensures sent { ExportsAreSent }
    ensures come { ExportsCome }
    ensures own { OwnExportsAreBrought S }
{}

/// Where a value is made of a vector's cells, the letters that are packed of its rows are the job's, and what a wire gives for
/// them are letters of these rows, whose table is the one that the rank of the job combines.
pub fn letters_serve_jobs<S: Scalar>()
    ensures content { LettersAreContent S.semiring S.conversions }
    ensures rows { LettersAreRows S.semiring S.conversions }
    ensures tables { LettersAreTables S.semiring S.conversions }
{}

/// A value that is made by a move: what its rank begins with zeros is what the rank of the job gathers first.
pub fn moves_are_begun<S: Scalar>()
    ensures { MovesAreBegun S.semiring S.conversions }
{}

/// The same of a value that is made by an import, a spread or an export: an import and an export begin onto the rank's own piece
/// with the statement's mode, a spread with zeros.
pub fn copies_are_begun<S: Scalar>()
    ensures imports { ImportsAreBegun S.semiring S.conversions }
    ensures spreads { SpreadsAreBegun S.semiring S.conversions }
    ensures exports { ExportsAreBegun S.semiring S.conversions }
{}

/// A value of these statements has one transfer, and is what its rank gathered in it.
pub fn copies_are_gathered<S: Scalar>()
    ensures { CopiesAreGathered S.semiring S.conversions }
{}

/// A transfer from a map to itself has no phase, and nothing comes by it. What is made by it are the rank's own cells, by an
/// import and an export combined with those of its piece by the statement's mode.
pub fn local_copies_are_made<S: Scalar>()
    ensures unsent { LocalTransfersAreUnsent }
    ensures none { NothingComesByLocals S.semiring S.conversions }
    ensures imports { LocalImportsAreMade S.semiring S.conversions }
    ensures exports { LocalExportsAreMade S.semiring S.conversions }
    ensures moves { LocalMovesAreMade S.semiring S.conversions }
    ensures spreads { LocalSpreadsAreMade S.semiring S.conversions }
{}

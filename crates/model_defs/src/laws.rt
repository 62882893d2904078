//! The laws of what files stand for, and of the ranks that compute the values of a job, for every kind of number. Each
//! function has an empty body: what it proves is its contract. No code is spoken of.
ghost use Rattle.model_defs.specs.BoundLaws.{MapsAreLayouts, EntriesAreSmall, WidthsAreSmall, ValuesAreFew};
ghost use Rattle.model_defs.specs.FileMatrix.{DealtMatricesAddUp};
ghost use Rattle.model_defs.specs.Laws.{StagesAreInOrder, EntriesAreEarly, EarlierLetters, JobsAreProtocols, JobsCanRun, PlacesAreStructure, RowLaws, RowLawsSuffice, MachineIsEval, LayoutsDoNotMatter, EntriesArePlaced, OwnCellsAreSent, PlansAreShared};
ghost use Rattle.model_defs.specs.PhaseLaws.{TransfersHavePhases, RegistrationsSayOwners};

use scalar_laws::Scalar;

/// Dealing: where entry k of a file goes to rank k mod P, the matrices of the ranks add up to the matrix of the file.
pub fn dealt_matrices_add_up<S>()
    ensures { DealtMatricesAddUp S }
{}

/// The letters of every job, with what comes before each and what its sender makes of it, are a protocol.
pub fn jobs_are_protocols<S: Scalar>()
    ensures { JobsAreProtocols S.semiring S.conversions }
{}

/// Every job, whatever its files, has a complete run over an honest wire.
pub fn jobs_can_run<S: Scalar>()
    ensures { JobsCanRun S.semiring S.conversions }
{}

/// The phases of transfers come in the order of the transfers.
pub fn stages_are_in_order()
    ensures { StagesAreInOrder }
{}

/// What a rank has for others in a phase depends on the letters to it of earlier phases alone.
pub fn letters_are_early<S: Scalar>()
    ensures transfers { EntriesAreEarly S.semiring S.conversions }
    ensures letters { EarlierLetters S.semiring S.conversions }
{}

/// Which places the values have follows from the job and its files, whatever the numbers and whatever is picked.
pub fn places_are_structure<S: Scalar>()
    ensures { PlacesAreStructure S.semiring S.conversions }
{}

/// Of every valid job whose files fit: what each rank makes of its pieces of the values before, and of all that the ranks
/// have for each other, is its piece of the value. One law for each way of making a value.
pub fn row_laws_hold<S: Scalar>()
    ensures { RowLaws S.semiring S.conversions }
{}

/// Where the row laws of a job hold, each complete run over an honest wire gives the values on the global data, in
/// whatever order its letters are delivered.
pub fn row_laws_suffice<S: Scalar>()
    ensures { RowLawsSuffice S.semiring S.conversions }
{}

/// For every valid job, files that fit it and every complete run over an honest wire, in whatever order its letters are
/// delivered and however often, the ranks' pieces together are the values on the global data.
pub fn jobs_are_computed<S: Scalar>()
    ensures { MachineIsEval S.semiring S.conversions }
{}

/// Two valid jobs without parts and split matrices that differ in their ranks and in the layouts of their maps alone, which
/// are total, have equal values, whatever is picked.
pub fn layouts_do_not_matter<S: Scalar>()
    ensures { LayoutsDoNotMatter S.semiring S.conversions }
{}

/// Whatever numbers came to a rank, on any wire, what it has for others in a phase has the places of the phase's letters.
pub fn entries_are_placed<S: Scalar>()
    ensures { EntriesArePlaced S.semiring S.conversions }
{}

/// Where what a rank has has the places of a letter, the letter is made of the rank's own cells of the rows that are sent.
pub fn own_cells_are_sent<S: Scalar>()
    ensures { OwnCellsAreSent S.semiring S.conversions }
{}

/// Matrices that share a structure have the same plans: of each rank the same lists.
pub fn plans_are_shared()
    ensures { PlansAreShared }
{}

/// A valid job is small: whatever its number a map is a layout of at most 2^40 indices, the entries of letters are below 2^40, a
/// matrix has at most 2^40 columns, and there are at most 264 values.
pub fn jobs_are_small()
    ensures maps { MapsAreLayouts }
    ensures entries { EntriesAreSmall }
    ensures widths { WidthsAreSmall }
    ensures values { ValuesAreFew }
{}

/// Each transfer that is not local has a phase, which is for its value and sends its numbers.
pub fn transfers_have_phases()
    ensures { TransfersHavePhases }
{}

/// The registrations of a one-to-one map at the home of an index tell its owner: that of the owner has the index, and no
/// other one (`Tpetra::Directory`).
pub fn registrations_say_owners()
    ensures { RegistrationsSayOwners }
{}

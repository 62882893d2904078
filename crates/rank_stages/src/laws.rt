//! The laws of the stages of a rank. Each function has an empty body: what it proves is its contract.
ghost use Rattle.rank_stages.specs.AbsorbLaws.{AnswersAreAbsorbed, ListsAreAbsorbed, NumbersAreAbsorbed, QuestionsAreAbsorbed, RegistrationsAreAbsorbed};
ghost use Rattle.rank_stages.specs.DataLaws.{CopiesAreData, CopiesAreFull, CopiesHaveForm};
ghost use Rattle.rank_stages.specs.EnterLaws.{AllAreMadeAtTheEnd, AnswersAreEntered, EndIsEntered, FirstPiecesArePieces, FirstValuesAreMade, ListsAreEntered, NumbersAreEntered, PiecesAreByPhase, PiecesAreMade, QuestionsAreEntered, RegistrationsAreEntered};
ghost use Rattle.rank_stages.specs.LetterLaws.{NumbersArePacked, NumbersAreRead, PhasesHaveKinds, PlanLettersHaveForm, PlansArePacked, PlansAreRead, PlansComeFromAll, PlansGoToAll, RowsAreFew};
ghost use Rattle.rank_stages.specs.OwnerLaws.{AnswersAreOwners, AnswersAreReadBack, DirectoriesAreWhole, EarlierPhasesAreLeft, HomesAreOne, IndicesAreWithin, IndicesHaveOneOwner, ListsAreTold, OwnersAreKnown, PhasesAreLeft, QuestionsAreWhole, RemotesAreByOwners, UniformMapsAreByRule};
ghost use Rattle.rank_stages.specs.PhaseOrder.{PhasesAreFew, PhasesArePrepared, PlansAreMadeOnce, TransfersAreSentOnce, TransfersHavePlans};
ghost use Rattle.rank_stages.specs.StageLaws.{GatheredStays, LettersAreCombined, LocalRanksStand, MadeValuesStay, RanksBegin};

use scalar_laws::Scalar;

/// A rank that entered no phase stands at the beginning, whatever it keeps.
pub fn ranks_begin<S: Scalar>()
    ensures { RanksBegin S.semiring S.conversions }
{}

/// A letter of numbers that is absorbed is combined with what its rank gathered in that transfer. It changes nothing that
/// was gathered before, and no value that was made.
pub fn letters_are_combined<S: Scalar>()
    ensures combined { LettersAreCombined S.semiring S.conversions }
    ensures gathered { GatheredStays S.semiring S.conversions }
    ensures values { MadeValuesStay S.semiring S.conversions }
{}

/// In a phase that sends no numbers a rank posts a letter to each other rank and awaits one from each, in ascending order.
pub fn plans_go_to_all()
    ensures names { PlansGoToAll }
    ensures each { PlansComeFromAll }
{}

/// The plans of a valid job join maps in which an index has one owner at most, and their indices are within these maps. Each
/// index has one home, whose directory keeps its owner.
pub fn plans_are_sound()
    ensures one_owner { IndicesHaveOneOwner }
    ensures within { IndicesAreWithin }
    ensures one_home { HomesAreOne }
    ensures answers { AnswersAreReadBack }
{}

/// What one rank lacks by a plan and another one owns follows from the owners alone, which in a uniform map are known by
/// arithmetic.
pub fn remotes_are_by_owners()
    ensures remotes { RemotesAreByOwners }
    ensures uniform { UniformMapsAreByRule }
{}

/// What a rank of a valid job knows once the phase was left that tells it: the owners of the indices whose home it is, what
/// each rank asked it, the owner of each index that it lacks, and what each other rank lacks of it (`Tpetra::Directory`).
pub fn owners_are_learnt<S: Scalar>()
    ensures left { PhasesAreLeft }
    ensures earlier { EarlierPhasesAreLeft S.semiring S.conversions }
    ensures directories { DirectoriesAreWhole S.semiring S.conversions }
    ensures questions { QuestionsAreWhole S.semiring S.conversions }
    ensures answers { AnswersAreOwners S.semiring S.conversions }
    ensures owners { OwnersAreKnown S.semiring S.conversions }
    ensures lists { ListsAreTold S.semiring S.conversions }
{}

/// A rank of a job without letters stands where it entered no phase, or has all its pieces: the case without phases.
pub fn local_ranks_stand<S: Scalar>()
    ensures { LocalRanksStand S.semiring S.conversions }
{}

/// Each thing is done in one phase of a job: a map is registered once, a plan is made once, and the numbers of a transfer are
/// sent once. A valid job has few phases.
pub fn phases_are_once()
    ensures plans { PlansAreMadeOnce }
    ensures transfers { TransfersAreSentOnce }
    ensures few { PhasesAreFew }
{}

/// Each phase comes after those that it needs: owners are asked for once their map is registered, a plan is made once the
/// owners are known, and a transfer's numbers are sent once its plan was made.
pub fn phases_are_prepared()
    ensures phases { PhasesArePrepared }
    ensures transfers { TransfersHavePlans }
{}

/// A letter that is absorbed changes one thing that its rank keeps, by what the letter's phase is about: the directory of a
/// map, what a rank asked, the owners that are known, what another rank lacks, or what was gathered in a transfer.
pub fn letters_are_absorbed<S: Scalar>()
    ensures registrations { RegistrationsAreAbsorbed S.semiring S.conversions }
    ensures questions { QuestionsAreAbsorbed S.semiring S.conversions }
    ensures answers { AnswersAreAbsorbed S.semiring S.conversions }
    ensures lists { ListsAreAbsorbed S.semiring S.conversions }
    ensures numbers { NumbersAreAbsorbed S.semiring S.conversions }
{}

/// A value is made of the rank's pieces of the values before it and of what it gathered. The values that are made are the
/// first ones, and at the end all. The pieces are those of the letters in the order in which they came.
pub fn values_are_made<S: Scalar>()
    ensures made { PiecesAreMade S.semiring S.conversions }
    ensures before { FirstPiecesArePieces S.semiring S.conversions }
    ensures first { FirstValuesAreMade S.semiring S.conversions }
    ensures end { AllAreMadeAtTheEnd S.semiring S.conversions }
    ensures by_phase { PiecesAreByPhase S.semiring S.conversions }
{}

/// A phase that is entered adds one thing to what a rank keeps beside the values that are made by now, by what the phase is
/// about; the end adds none.
pub fn phases_are_entered<S: Scalar>()
    ensures registrations { RegistrationsAreEntered S.semiring S.conversions }
    ensures questions { QuestionsAreEntered S.semiring S.conversions }
    ensures answers { AnswersAreEntered S.semiring S.conversions }
    ensures lists { ListsAreEntered S.semiring S.conversions }
    ensures numbers { NumbersAreEntered S.semiring S.conversions }
    ensures end { EndIsEntered S.semiring S.conversions }
{}

/// What the letters of a job are, as a rank packs them and as a wire gives them: each has the kind of its phase. One that
/// sends no numbers has its entries as words and comes as it was posted; one that sends numbers comes with the words that
/// its sender gave it and as many numbers.
pub fn letters_have_forms<S: Scalar>()
    ensures kinds { PhasesHaveKinds }
    ensures form { PlanLettersHaveForm }
    ensures few { RowsAreFew }
    ensures plans_packed { PlansArePacked S.semiring S.conversions }
    ensures plans_read { PlansAreRead S.semiring S.conversions }
    ensures numbers_packed { NumbersArePacked S.semiring S.conversions }
    ensures numbers_read { NumbersAreRead S.semiring S.conversions }
{}

/// Where a value is made of the cells of a vector or of parts as they are (`move`, `import`, `export`, `spread`), its letters
/// are DATA: their words are the rows that are sent, and each row has a number in each column, row after row.
pub fn copies_are_full()
    ensures places { CopiesAreFull }
    ensures words { CopiesAreData }
    ensures form { CopiesHaveForm }
{}

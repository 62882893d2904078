//! Laws that join a book to the plans of a job. Each function here does nothing: its contract holds of every job.
ghost use Rattle.rank_plans.specs.JobPlans.{AnswersNameOwners, ExportsLackTheRest, ImportsLackTheRest, OwnListsAreRemote, QuestionsAreAsked, RegistrationsAreEntries};

/// The words that a book makes are the entries of the letters of a job: what is registered of a map, what is asked by a plan,
/// and what an import lacks.
pub fn words_are_entries()
    ensures registrations { RegistrationsAreEntries }
    ensures questions { QuestionsAreAsked }
    ensures imports { ImportsLackTheRest }
{}

/// Where the directories have the owners of a layout, the answers to questions name them, and what a rank lacks of each other
/// rank follows from the owners that it knows.
pub fn owners_are_named()
    ensures answers { AnswersNameOwners }
    ensures lists { OwnListsAreRemote }
{}

/// What a rank lacks by an export: it holds these indices without owning them, and gives them to their owners.
pub fn exports_give_the_rest()
    ensures { ExportsLackTheRest }
{}

//! Laws of the files of a job, and of the texts that are held.
ghost use Rattle.job_files.specs.Laws.{FilesAreSound, ReadTextsCanBeHeld};

/// The files of a job are as many as it names, and each is sound in the form in which the job has it read.
pub fn files_are_sound()
    ensures { FilesAreSound }
{}

/// Texts that were read, each as what the files may tell of its name, can be held.
pub fn read_texts_can_be_held()
    ensures { ReadTextsCanBeHeld }
{}

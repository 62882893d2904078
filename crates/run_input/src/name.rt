//! Names of files.
ghost use Rattle.std.specs.Prelude.{◌≡◌};
ghost use Rattle.run_input.specs.Reading.{name_text};

use model_defs::Text;

/// The name of a file: a word of the command, or a name that stands in the job.
#[derive(Debug, Drop)]
pub enum FileName<'a> {
    Word(&'a str),
    InJob(Text),
}

impl<'a> FileName<'a> {
    /// The name itself.
    pub fn as_str(&self) -> &str
        ensures { result.now ≡ name_text self.now }
    {
        match self {
            FileName::Word(word) => word,
            FileName::InJob(text) => text.as_str(),
        }
    }
}

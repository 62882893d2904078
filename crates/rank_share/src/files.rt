//! Where the files of a value stand among the files of a job.
ghost use Rattle.std.specs.Prelude.{◌≡◌, length};
ghost use Rattle.model_defs.specs.Given.{origin_files};

use model_defs::Origin;

/// How many files there are.
pub(crate) fn count_of(from: &Origin) -> usize
    ensures count { result ≡ length (origin_files from.now) }
{
    match from {
        Origin::Files(names) => names.as_slice().len(),
        Origin::Fill(_) => 0,
    }
}

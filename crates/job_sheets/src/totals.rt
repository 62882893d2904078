//! Whether a map has each index below its size.
ghost use Rattle.std.specs.Prelude.{◌≡◌, ◌==◌, length};
ghost use Rattle.std.specs.List.{concat};
ghost use Rattle.map_core.specs.Layouts.{IsOneToOne};
ghost use Rattle.model_defs.specs.Maps.{layout_of, size_of};
ghost use Rattle.model_defs.specs.Sheets.{is_total};
ghost use Rattle.model_defs.specs.Valid.{IsValid};

use model_defs::{Job, ListOf, MapForm};

/// Whether the lists have this many indices together.
fn has_count(lists: &[ListOf<u64>], size: u64) -> bool
    ensures { result ≡ (length (concat lists.now) == size) }
{
    let mut rest = size;
    for list in lists {
        let count = list.as_slice().len() as u64;
        if count > rest {
            return false;
        }
        rest -= count;
    }
    rest == 0
}

/// The size of a map of a job, and 0 where there is no such map.
pub fn size_of(job: &Job, m: u32) -> u64
    ensures size { result ≡ size_of job.now m }
{
    match job.maps.as_slice().get(m as usize) {
        Some(spec) => spec.size,
        None => 0,
    }
}

/// Whether each index below the size of a map stands in the list of a rank. No index has two owners, so the indices of a map
/// of lists are counted; any other map is total.
pub fn is_total(job: &Job, m: u32) -> bool
    requires valid { IsValid job.now }
    requires one_to_one { IsOneToOne (layout_of job.now m) }
    ensures total { result ≡ is_total job.now m }
{
    match job.maps.as_slice().get(m as usize) {
        Some(spec) => match &spec.form {
            MapForm::Lists(lists) => has_count(lists.as_slice(), spec.size),
            MapForm::Uniform | MapForm::Blocks(_) | MapForm::Cyclic => true,
        },
        None => true,
    }
}

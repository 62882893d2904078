//! Texts that were read, in another form and within other limits.
ghost use Rattle.std.specs.Prelude.{◌≡◌, ◌≢◌, ◌≤◌, ℕ, List, IfErr, IfOk, length};
ghost use Rattle.mm_text.specs.Limits.{profile_of};
ghost use Rattle.mm_text.specs.Outcomes.{Gives};
ghost use Rattle.mm_text.specs.ReadAgain.{read_again, within_limits};
ghost use Rattle.mm_text.specs.Reading.{IsFile, file_of, reading};

use crate::profile::Profile;
use crate::reading::banner::same_form;
use crate::{FileData, Form, MmFault};
use std::alloc::Global;

/// Whether so many rows, columns and entries keep the limits.
fn within_limits(profile: Profile, rows: u64, cols: u64, count: usize) -> Result<(), MmFault>
    ensures { result ≡ within_limits profile rows cols count tt }
{
    if rows > profile.rows || cols > profile.cols {
        return Err(MmFault::BadSize);
    }
    if count > profile.entries as usize {
        return Err(MmFault::TooManyEntries);
    }
    Ok(())
}

/// A copy of a file of this form, in the form of the profile and within its limits.
fn copied_again(
    alloc: Global,
    file: &FileData,
    form: Form,
    profile: Profile,
) -> Result<FileData, MmFault>
    ensures { Gives file_of result (read_again form profile (file_of file.now)) }
{
    if !same_form(profile.form, form) {
        return Err(MmFault::WrongForm);
    }
    within_limits(profile, file.rows, file.cols, file.lines.len())?;
    Ok(FileData {
        rows: file.rows,
        cols: file.cols,
        mirror: file.mirror,
        lines: file.lines.as_slice().to_vec(alloc)?,
    })
}

/// What the text of a file that was read in the form `form` is in the form `want`, with at most `most` rows and `room`
/// entries: a copy of the file, or the fault of its text. No text is read for it.
///
/// `WrongForm` comes exactly where the forms differ, else `BadSize` exactly where the file has more rows than `most`, else
/// `TooManyEntries` exactly where it has more entries than `room`; `NoMem` where memory ran out.
pub fn read_again(
    alloc: Global,
    file: &FileData,
    form: Form,
    want: Form,
    room: u32,
    most: u64,
) -> Result<FileData, MmFault>
    ensures answer { Gives file_of result (read_again form (profile_of want room most) (file_of file.now)) }

    // What is answered is what each text is read as of which this is the file.
    ensures text { (before limit : ℕ) (text : List ℕ) → IsFile (profile_of form before limit) text (file_of file.now)
        → Gives file_of result (reading (profile_of want room most) text) }
    ensures room { IfOk result (λ found. length found.lines.items ≤ room) }
    ensures no_read { IfErr result (λ fault. fault ≢ MmFault.ReadFault) }
{
    copied_again(alloc, file, form, Profile::new(want, room, most))
}

//! Files that are read by name.
ghost use Rattle.std.specs.Prelude.{◌≡◌, ◌≢◌, ◌+◌, ◌<◌, ◌≤◌, ◌⊎◌, ◌++◌, ℕ, List, Option, Some, length, take, IfOk, IfErr, IsErrOf, MatchOption};
ghost use Rattle.outside.specs.Bytes.{IsReadOf};
ghost use Rattle.outside.specs.Reads.{HasText, Reads, Source};
ghost use Rattle.mm_text.specs.Limits.{most_bytes, most_cols, most_rows, profile_of};
ghost use Rattle.mm_text.specs.Outcomes.{Gives, IsTextFault};
ghost use Rattle.mm_text.specs.Reading.{HasFault, IsFile, file_of, reading};
ghost use Rattle.mm_text.specs.Sound.{IsSound, KeepsLimits};

use crate::profile::{MOST_BYTES, Profile};
use crate::reading::text::read_text;
use crate::{FileData, Form, MmFault};
use outside::{Failed, Files};
use std::alloc::Global;

/// The bytes of the buffer of a read.
const BUFFER_LEN: usize = 65_536;

/// Reads a piece of the file behind the bytes that are read, and answers its length: 0 only at the end.
fn read_piece<F: Files>(
    files: &mut F,
    name: &str,
    bytes: &mut Vec<u8>,
    piece: &mut [u8],
) -> Result<usize, MmFault>
    requires { 0 < length piece.old }
    ensures reads { Reads F.told F.faults files.old files.new name.now (IsErrOf result MmFault.ReadFault) }
    ensures length { IfOk result (λ n. length bytes.new.items ≡ length bytes.old.items + n) }
    ensures within { IfOk result (λ n. n ≤ length piece.old) }
    ensures read { IfOk result (λ n. (source : Source) → F.told files.old ≡ Some source
        → (read : List ℕ) × IsReadOf (source name.now) (length bytes.old.items) n (length piece.old) read
        × (bytes.new.items ≡ bytes.old.items ++ read)) }
    ensures fault { IfErr result (λ fault. (fault ≡ MmFault.NoMem) ⊎ (fault ≡ MmFault.ReadFault)) }
{
    match files.read_at(name, bytes.len() as u64, piece) {
        Err(Failed) => Err(MmFault::ReadFault),
        Ok(count) => {
            bytes.extend_from_slice(&piece[..count])?;
            Ok(count)
        }
    }
}

/// Reads the file up to one byte past the most, in pieces of at most the length of `piece`.
fn read_pieces<F: Files>(
    alloc: Global,
    files: &mut F,
    name: &str,
    piece: &mut [u8],
) -> Result<Vec<u8>, MmFault>
    requires { 0 < length piece.old }
    ensures reads { Reads F.told F.faults files.old files.new name.now (IsErrOf result MmFault.ReadFault) }
    ensures most { IfOk result (λ bytes. length bytes.items ≤ most_bytes + 1) }
    ensures bytes { IfOk result (λ bytes. (source : Source) → F.told files.old ≡ Some source
        → MatchOption (source name.now) ⊥ (λ text. bytes.items ≡ take (most_bytes + 1) text)) }
    ensures fault { IfErr result (λ fault. (fault ≡ MmFault.NoMem) ⊎ (fault ≡ MmFault.ReadFault)) }
{
    let mut bytes = Vec::new(alloc);
    while bytes.len() <= MOST_BYTES {
        let room = piece.len().min(MOST_BYTES + 1 - bytes.len());
        let count = read_piece(files, name, &mut bytes, &mut piece[..room])?;
        if count == 0 {
            return Ok(bytes);
        }
    }
    Ok(bytes)
}

/// The bytes of the file of this name, up to one past the most.
fn read_front<F: Files>(alloc: Global, files: &mut F, name: &str) -> Result<Vec<u8>, MmFault>
    ensures reads { Reads F.told F.faults files.old files.new name.now (IsErrOf result MmFault.ReadFault) }
    ensures most { IfOk result (λ bytes. length bytes.items ≤ most_bytes + 1) }
    ensures bytes { IfOk result (λ bytes. (source : Source) → F.told files.old ≡ Some source
        → MatchOption (source name.now) ⊥ (λ text. bytes.items ≡ take (most_bytes + 1) text)) }
    ensures fault { IfErr result (λ fault. (fault ≡ MmFault.NoMem) ⊎ (fault ≡ MmFault.ReadFault)) }
{
    let mut piece = vec![in alloc; 0u8; BUFFER_LEN]?;
    read_pieces(alloc, files, name, piece.as_mut_slice())
}

/// Reads a matrix from the file of this name, in the form that is wanted: coordinate or array text of whole numbers, by
/// the NIST Matrix Market exchange formats. It has at most `most` rows, 16,777,216 columns and `room` entries, and its
/// text at most 536,870,912 bytes.
///
/// Where the file has faults, the first in file order is answered, and within a line the first in the order of the
/// tests: those of the words before those of the ranges, and the width of the value last. Lines are counted from 1.
/// `ReadFault` comes only where a read of this name failed, and `NoMem` where memory ran out. At the end of a file that
/// is too long, or at a line that ends behind the most bytes, no other fault than `TooLong` comes.
///
/// The conditions: `most` is at most 2^40, and at most 16,777,216 for an array.
pub fn read_matrix<F: Files>(
    alloc: Global,
    files: &mut F,
    name: &str,
    want: Form,
    room: u32,
    most: u64,
) -> Result<FileData, MmFault>
    requires rows { most ≤ most_rows }
    requires array_rows { want ≡ Form.Array → most ≤ most_cols }

    // The files stay, no count of faults falls, and a ReadFault comes exactly where that of the name rose.
    ensures reads { Reads F.told F.faults files.old files.new name.now (IsErrOf result MmFault.ReadFault) }

    // What is answered is what the text of the name is in some source that agrees with what the files tell, and so in
    // the told one where they tell: its file, or its first fault.
    ensures file { IfOk result (λ found.
        HasText (F.told files.old) name.now (λ text. IsFile (profile_of want room most) text (file_of found))) }
    ensures fault { IfErr result (λ fault. IsTextFault fault
        → HasText (F.told files.old) name.now (λ text. HasFault (profile_of want room most) text fault)) }

    // What is read is sound, and keeps the limits.
    ensures sound { IfOk result (λ found. IsSound (file_of found)) }
    ensures limits { IfOk result (λ found. KeepsLimits (profile_of want room most) (file_of found)) }
{
    let bytes = read_front(alloc, files, name)?;
    read_text(alloc, &bytes, Profile::new(want, room, most))
}

/// The matrix of a text that is at hand, in the form that is wanted, with at most `most` rows and `room` entries: what
/// [`read_matrix`] answers for a file of this text. `NoMem` comes where memory ran out.
///
/// The condition: `most` is at most 2^40.
pub fn parse_matrix(
    alloc: Global,
    text: &[u8],
    want: Form,
    room: u32,
    most: u64,
) -> Result<FileData, MmFault>
    requires { most ≤ most_rows }
    ensures answer { Gives file_of result (reading (profile_of want room most) text.now) }
    ensures sound { IfOk result (λ found. IsSound (file_of found)) }
    ensures limits { IfOk result (λ found. KeepsLimits (profile_of want room most) (file_of found)) }
    ensures no_read { IfErr result (λ fault. fault ≢ MmFault.ReadFault) }
{
    read_text(alloc, text, Profile::new(want, room, most))
}

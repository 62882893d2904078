//! The bytes of a file, up to one past the most that it may have.
ghost use Rattle.std.specs.Prelude.{◌≡◌, ◌+◌, ◌<◌, ◌≤◌, ◌++◌, ◌^◌, ℕ, List, Option, Some, length, take, IfErr, IfOk, IsErrOf, MatchOption};
ghost use Rattle.outside.specs.Bytes.{IsReadOf};
ghost use Rattle.outside.specs.Reads.{HasText, Reads, Source};
ghost use Rattle.run_input.specs.Reading.{IsUnreadOf, ReadsMany};

use crate::{FileName, InputFault};
use outside::{Failed, Files};
use std::alloc::{AllocError, AllocFailed, Global};

/// The bytes of the buffer of a read.
const BUFFER_LEN: usize = 65_536;

/// Why a file is not read.
#[derive(Drop)]
pub(crate) enum ReadFault {
    Memory,
    Failed,
}

impl From<AllocError> for ReadFault {
    ghost use Rattle.std.specs.Prelude.{◌≡◌};
    ghost use Rattle.run_input.specs.declared.front.ReadFault.TheVariants.{Memory};

    ghost from_gives = { λ _ e. e ≡ Memory };

    fn from(_e: AllocError) -> ReadFault {
        ReadFault::Memory
    }
}

impl<T: Drop> From<AllocFailed<T>> for ReadFault {
    ghost use Rattle.std.specs.Prelude.{◌≡◌};
    ghost use Rattle.run_input.specs.declared.front.ReadFault.TheVariants.{Memory};

    ghost from_gives = { λ _ e. e ≡ Memory };

    fn from(_e: AllocFailed<T>) -> ReadFault {
        ReadFault::Memory
    }
}

/// Reads a piece of the file behind the bytes that are read, and answers its length: 0 only at the end.
fn read_piece<F: Files>(
    files: &mut F,
    name: &str,
    bytes: &mut Vec<u8>,
    piece: &mut [u8],
) -> Result<usize, ReadFault>
    requires { 0 < length piece.old }
    ensures reads { Reads F.told F.faults files.old files.new name.now (IsErrOf result ReadFault.Failed) }
    ensures length { IfOk result (λ n. length bytes.new.items ≡ length bytes.old.items + n) }
    ensures within { IfOk result (λ n. n ≤ length piece.old) }
    ensures read { IfOk result (λ n. (source : Source) → F.told files.old ≡ Some source
        → (read : List ℕ) × IsReadOf (source name.now) (length bytes.old.items) n (length piece.old) read
        × (bytes.new.items ≡ bytes.old.items ++ read)) }
{
    match files.read_at(name, bytes.len() as u64, piece) {
        Err(Failed) => Err(ReadFault::Failed),
        Ok(count) => {
            bytes.extend_from_slice(&piece[..count])?;
            Ok(count)
        }
    }
}

/// Reads the file up to one byte past the most, in pieces of at most the length of `piece`.
fn read_pieces<F: Files>(
    alloc: Global,
    files: &mut F,
    name: &str,
    most: usize,
    piece: &mut [u8],
) -> Result<Vec<u8>, ReadFault>
    requires some { 0 < length piece.old }
    requires most { most < 2 ^ 32 }
    ensures reads { Reads F.told F.faults files.old files.new name.now (IsErrOf result ReadFault.Failed) }
    ensures most { IfOk result (λ bytes. length bytes.items ≤ most + 1) }
    ensures bytes { IfOk result (λ bytes. (source : Source) → F.told files.old ≡ Some source
        → MatchOption (source name.now) ⊥ (λ text. bytes.items ≡ take (most + 1) text)) }
{
    let mut bytes = Vec::new(alloc);
    while bytes.len() <= most {
        let room = piece.len().min(most + 1 - bytes.len());
        let count = read_piece(files, name, &mut bytes, &mut piece[..room])?;
        if count == 0 {
            return Ok(bytes);
        }
    }
    Ok(bytes)
}

/// The same, with a buffer of its own.
fn read_bytes<F: Files>(
    alloc: Global,
    files: &mut F,
    name: &str,
    most: usize,
) -> Result<Vec<u8>, ReadFault>
    requires { most < 2 ^ 32 }
    ensures reads { Reads F.told F.faults files.old files.new name.now (IsErrOf result ReadFault.Failed) }
    ensures most { IfOk result (λ bytes. length bytes.items ≤ most + 1) }
    ensures bytes { IfOk result (λ bytes. (source : Source) → F.told files.old ≡ Some source
        → MatchOption (source name.now) ⊥ (λ text. bytes.items ≡ take (most + 1) text)) }
{
    let mut piece = vec![in alloc; 0u8; BUFFER_LEN]?;
    read_pieces(alloc, files, name, most, piece.as_mut_slice())
}

/// The bytes of the file of this name, up to one past the most.
pub(crate) fn read_front<'a, F: Files>(
    alloc: Global,
    files: &mut F,
    name: &'a str,
    most: usize,
) -> Result<Vec<u8>, InputFault<'a>>
    requires { most < 2 ^ 32 }
    ensures reads { ReadsMany F.told F.faults files.old files.new result }
    ensures front { IfOk result (λ bytes.
        HasText (F.told files.old) name.now (λ text. bytes.items ≡ take (most + 1) text)) }
    ensures name { IfErr result (IsUnreadOf name.now) }
{
    match read_bytes(alloc, files, name, most) {
        Ok(bytes) => Ok(bytes),
        Err(ReadFault::Memory) => Err(InputFault::Memory),
        Err(ReadFault::Failed) => Err(InputFault::Unread {
            name: FileName::Word(name),
        }),
    }
}

//! The size line.
ghost use Rattle.std.specs.Prelude.{◌≡◌, ◌≤◌, ◌*◌, IfOk, option_map};
ghost use Rattle.mm_text.specs.Limits.{IsReadable};
ghost use Rattle.mm_text.specs.Lines.{words_in, words_of};
ghost use Rattle.mm_text.specs.Sizes.{sizes_announced, array_sizes_announced, coordinate_sizes_announced, is_plain, sizes_limited, sizes_of};
ghost use Rattle.mm_text.specs.Cut.{cut_sizes};

use crate::profile::Profile;
use crate::reading::banner::{Banner, Kind};
use crate::reading::numerals::count;
use crate::{Mirror, MmFault};
use text_lines::{three_words, two_words, without_return};

/// Rows, columns, and the number of entries.
#[derive(Clone, Copy, PartialEq, Eq)]
pub struct Sizes {
    pub rows: u64,
    pub cols: u64,
    pub count: u64,
}

/// The sizes of an array, each at most `u64::MAX`.
fn array_sizes_announced(bytes: &[u8]) -> Option<Sizes>
    ensures { result ≡ option_map cut_sizes (array_sizes_announced (words_in bytes.now)) }
{
    let (rows, cols) = two_words(bytes)?;
    let rows = count(rows)?;
    let cols = count(cols)?;
    Some(Sizes {
        rows,
        cols,
        count: rows.saturating_mul(cols),
    })
}

/// The sizes and the number of entries, each at most `u64::MAX`.
fn coordinate_sizes_announced(bytes: &[u8]) -> Option<Sizes>
    ensures { result ≡ option_map cut_sizes (coordinate_sizes_announced (words_in bytes.now)) }
{
    let (rows, cols, entries) = three_words(bytes)?;
    Some(Sizes {
        rows: count(rows)?,
        cols: count(cols)?,
        count: count(entries)?,
    })
}

/// The sizes that are announced, each at most `u64::MAX`.
fn sizes_announced(kind: Kind, bytes: &[u8]) -> Option<Sizes>
    ensures { result ≡ option_map cut_sizes (sizes_announced kind (words_in bytes.now)) }
{
    match kind {
        Kind::Dense => array_sizes_announced(bytes),
        Kind::Valued => coordinate_sizes_announced(bytes),
        Kind::Pattern => coordinate_sizes_announced(bytes),
    }
}

/// Whether the file has no symmetry.
fn is_plain(mirror: Mirror) -> bool
    ensures { result ≡ is_plain mirror }
{
    match mirror {
        Mirror::Plain => true,
        Mirror::Same => false,
        Mirror::Negated => false,
    }
}

/// The sizes, where they keep the limits.
fn sizes_limited(mirror: Mirror, profile: Profile, sizes: Sizes) -> Result<Sizes, MmFault>
    ensures { result ≡ sizes_limited mirror profile sizes }
{
    if sizes.rows > profile.rows || sizes.cols > profile.cols {
        return Err(MmFault::BadSize);
    }
    if !is_plain(mirror) && sizes.rows != sizes.cols {
        return Err(MmFault::NotSquare);
    }
    if sizes.count > u64::from(profile.entries) {
        return Err(MmFault::TooManyEntries);
    }
    Ok(sizes)
}

/// The sizes of a size line.
pub fn read_sizes(banner: Banner, profile: Profile, line: &[u8]) -> Result<Sizes, MmFault>
    requires { IsReadable profile }
    ensures sizes { result ≡ sizes_of banner profile (words_of line.now) }
    ensures rows { IfOk result (λ sizes. sizes.rows ≤ profile.rows) }
    ensures cols { IfOk result (λ sizes. sizes.cols ≤ profile.cols) }
    ensures count { IfOk result (λ sizes. sizes.count ≤ profile.entries) }
    ensures dense { IfOk result (λ sizes. banner.kind ≡ Kind.Dense → sizes.count ≡ sizes.rows * sizes.cols) }
{
    match sizes_announced(banner.kind, without_return(line)) {
        None => Err(MmFault::BadSize),
        Some(sizes) => sizes_limited(banner.mirror, profile, sizes),
    }
}

//! The letter of entries of a source.
ghost use Rattle.std.specs.Prelude.{◌≡◌, ◌≢◌, ◌<◌, ◌≤◌, ◌+◌, ◌*◌, ◌^◌, ◌++◌, ℕ, List, None, true, length, nat_lt, count_by, IsOk, OnOk, OnErr};
ghost use Rattle.std.specs.List.{list_all, flat_map};
ghost use Rattle.letter_codec.specs.Letters.{word_bytes, number_bytes};
ghost use Rattle.letter_codec.specs.Writing.{StartsWith};
ghost use Rattle.distributor.specs.Entries.{entry_at, columns_of};
ghost use Rattle.distributor.specs.Packed.{sent_entries, words_for, numbers_of, cell_count, entries_letter, with_room};
ghost use Rattle.byte_pool.specs.Blocks.{has_room};
ghost use Rattle.byte_pool.specs.Leases.{IsLeastRoom, leases, sizes, with_lease};

use crate::DistSource;
use byte_pool::{Lease, Pool};
use letter_codec::{Kind, put_number, put_word, write_head};
use scalar_laws::Scalar;
use std::alloc::AllocError;

/// How many cells the entries at these positions have.
pub(crate) fn count_cells<S: Scalar, A: DistSource<S>>(source: &A, list: &[u32]) -> u64
    requires known { list_all (λ p. nat_lt p (length (A.entries source.now))) list.now ≡ true }
    requires fits { cell_count (sent_entries (A.entries source.now) list.now) < 2 ^ 64 }
    ensures cells { result ≡ cell_count (sent_entries (A.entries source.now) list.now) }
{
    let mut cells = 0;
    for lid in list {
        cells += source.count(*lid);
    }
    cells
}

/// How many words a letter of so many entries with so many cells has.
pub(crate) fn count_words(kind: Kind, entries: u64, cells: u64) -> u64
    requires fits { kind ≡ Kind.Rows → 2 * entries + cells < 2 ^ 64 }
    ensures rows { kind ≡ Kind.Rows → result ≡ 2 * entries + cells }
    ensures others { kind ≢ Kind.Rows → result ≡ entries }
{
    match kind {
        Kind::Rows => 2 * entries + cells,
        _ => entries,
    }
}

/// Writes the columns of an entry, from word `at` on.
fn put_columns<S: Scalar, A: DistSource<S>>(out: &mut [u8], at: u64, source: &A, lid: u32)
    requires known { lid < length (A.entries source.now) }
    requires room { 9 + 8 * (at + length (columns_of (entry_at (A.entries source.now) lid))) ≤ length out.old }
    ensures next { (before : List ℕ) → length before ≡ 9 + 8 * at → StartsWith before out.old
        → StartsWith (before ++ word_bytes (columns_of (entry_at (A.entries source.now) lid))) out.new }
{
    for k in 0..source.count(lid) {
        let (col, _) = source.cell(lid, k);
        put_word(out, at + k, col);
    }
}

/// Writes the words of an entry, from word `at` on, and answers how many they are.
fn put_entry<S: Scalar, A: DistSource<S>>(
    out: &mut [u8],
    kind: Kind,
    at: u64,
    source: &A,
    lid: u32,
) -> u64
    requires known { lid < length (A.entries source.now) }
    requires room { 9 + 8 * (at + length (words_for kind (entry_at (A.entries source.now) lid))) ≤ length out.old }
    ensures count { result ≡ length (words_for kind (entry_at (A.entries source.now) lid)) }
    ensures next { (before : List ℕ) → length before ≡ 9 + 8 * at → StartsWith before out.old
        → StartsWith (before ++ word_bytes (words_for kind (entry_at (A.entries source.now) lid))) out.new }
{
    put_word(out, at, source.gid(lid));
    if let Kind::Rows = kind {
        let count = source.count(lid);
        put_word(out, at + 1, count);
        put_columns(out, at + 2, source, lid);
        return 2 + count;
    }
    1
}

/// Writes the words of the entries at these positions.
fn put_words<S: Scalar, A: DistSource<S>>(out: &mut [u8], kind: Kind, source: &A, list: &[u32])
    requires known { list_all (λ p. nat_lt p (length (A.entries source.now))) list.now ≡ true }
    requires small { length out.old < 2 ^ 64 }
    requires room { 9 + 8 * length (flat_map (words_for kind) (sent_entries (A.entries source.now) list.now)) ≤ length out.old }
    ensures next { (before : List ℕ) → length before ≡ 9 → StartsWith before out.old
        → StartsWith (before ++ word_bytes (flat_map (words_for kind) (sent_entries (A.entries source.now) list.now))) out.new }
{
    let mut at = 0;
    for lid in list {
        at += put_entry(out, kind, at, source, *lid);
    }
}

/// Writes the numbers of an entry, from number `at` on.
fn put_cells<S: Scalar, A: DistSource<S>>(
    out: &mut [u8],
    words: u64,
    at: u64,
    source: &A,
    lid: u32,
) -> u64
    requires known { lid < length (A.entries source.now) }
    requires room { 9 + 8 * words + 32 * (at + length (entry_at (A.entries source.now) lid).cells) ≤ length out.old }
    ensures count { result ≡ length (entry_at (A.entries source.now) lid).cells }
    ensures next { (before : List ℕ) → length before ≡ 9 + 8 * words + 32 * at → StartsWith before out.old
        → StartsWith (before ++ number_bytes S.conversions (numbers_of (entry_at (A.entries source.now) lid))) out.new }
{
    let count = source.count(lid);
    for k in 0..count {
        let (_, value) = source.cell(lid, k);
        put_number(out, words, at + k, value);
    }
    count
}

/// Writes the numbers of the entries at these positions, behind so many words.
fn put_numbers<S: Scalar, A: DistSource<S>>(out: &mut [u8], words: u64, source: &A, list: &[u32])
    requires known { list_all (λ p. nat_lt p (length (A.entries source.now))) list.now ≡ true }
    requires small { length out.old < 2 ^ 64 }
    requires room { 9 + 8 * words + 32 * cell_count (sent_entries (A.entries source.now) list.now) ≤ length out.old }
    ensures next { (before : List ℕ) → length before ≡ 9 + 8 * words → StartsWith before out.old
        → StartsWith (before ++ number_bytes S.conversions (flat_map numbers_of (sent_entries (A.entries source.now) list.now))) out.new }
{
    let mut at = 0;
    for lid in list {
        at += put_cells(out, words, at, source, *lid);
    }
}

/// Writes the letter of the entries at these positions, which has so many words.
pub(crate) fn write_letter<S: Scalar, A: DistSource<S>>(
    out: &mut [u8],
    kind: Kind,
    words: u64,
    source: &A,
    list: &[u32],
)
    requires known { list_all (λ p. nat_lt p (length (A.entries source.now))) list.now ≡ true }
    requires words { words ≡ length (flat_map (words_for kind) (sent_entries (A.entries source.now) list.now)) }
    requires small { length out.old < 2 ^ 64 }
    requires room { length out.old ≡ 9 + 8 * words + 32 * cell_count (sent_entries (A.entries source.now) list.now) }
    ensures letter { out.new ≡ entries_letter S.conversions kind (sent_entries (A.entries source.now) list.now) }
{
    write_head(kind, words, out);
    put_words(out, kind, source, list);
    put_numbers(out, words, source, list);
}

/// Makes room for a letter of rows of so many bytes: a block of this length. For other letters there is room.
pub(crate) fn make_room(kind: Kind, len: u64, pool: &mut Pool) -> Result<(), AllocError>
    requires room { kind ≢ Kind.Rows → 1 ≤ count_by (has_room len) pool.old }
    ensures pool { OnOk result (pool.new ≡ with_room kind len pool.old) }
    ensures room { OnOk result (1 ≤ count_by (has_room len) pool.new) }
    ensures leases { leases pool.new ≡ leases pool.old }
    ensures err { OnErr result (pool.new ≡ pool.old) }
    ensures always { kind ≢ Kind.Rows → IsOk result }
{
    match kind {
        Kind::Rows => pool.reserve(1, len),
        _ => Ok(()),
    }
}

/// Lends a block with the letter of the entries at these positions, which has `len` bytes and so many words.
pub(crate) fn lend_letter<S: Scalar, A: DistSource<S>>(
    pool: &mut Pool,
    len: u64,
    kind: Kind,
    words: u64,
    source: &A,
    list: &[u32],
) -> Lease
    requires room { 1 ≤ count_by (has_room len) pool.old }
    requires known { list_all (λ p. nat_lt p (length (A.entries source.now))) list.now ≡ true }
    requires words { words ≡ length (flat_map (words_for kind) (sent_entries (A.entries source.now) list.now)) }
    requires len { len ≡ 9 + 8 * words + 32 * cell_count (sent_entries (A.entries source.now) list.now) }
    ensures least { IsLeastRoom len pool.old result }
    ensures fresh { leases pool.old result ≡ None }
    ensures letter { leases pool.new ≡ with_lease (leases pool.old) result (entries_letter S.conversions kind (sent_entries (A.entries source.now) list.now)) }
    ensures sizes { sizes pool.new ≡ sizes pool.old }
{
    let lease = pool.lease(len);
    write_letter(pool.bytes_mut(&lease), kind, words, source, list);
    lease
}

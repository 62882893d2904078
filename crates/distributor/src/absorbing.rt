//! The entries of a letter that come for a target.
ghost use Rattle.std.specs.Prelude.{◌≡◌, ◌<◌, ◌≤◌, ◌+◌, ◌*◌, ◌^◌, List, true, length, take, drop, map, IsOk, OnOk, OnErr};
ghost use Rattle.std.specs.List.{list_all, zip};
ghost use Rattle.tables.specs.Indices.{count_from};
ghost use Rattle.letter_codec.specs.Letters.{RowEntry, AreRows, place_count};
ghost use Rattle.letter_codec.specs.Parts.{words_of};
ghost use Rattle.distributor.specs.Entries.{with_cells, placed, numbered};
ghost use Rattle.distributor.specs.Transfers.{IsPartOf, moved_cells};
ghost use Rattle.distributor.specs.Arrivals.{numbers_in, with_numbers, arrived_moves};

use crate::DistTarget;
use combine_modes::Mode;
use letter_codec::{Letter, number, word};
use map_core::Gid;
use scalar_laws::Scalar;
use std::alloc::AllocError;

/// The numbers of entry `at` of a letter come for local index `to`, in the columns from 0 on.
pub(crate) fn combine_numbers<S: Scalar, B: DistTarget<S>>(
    letter: &Letter<'_>,
    at: u64,
    width: u32,
    target: &mut B,
    to: u32,
    mode: Mode,
) -> Result<(), AllocError>
    requires within { 32 * (at * width + width) ≤ length letter.now.numbers.now }
    requires taken { let cells = zip (count_from 0 width) (take width (drop (at * width) (numbers_in S.conversions letter.now.numbers.now))) in
        list_all (λ c. B.takes target.old c.row c.col) (map (placed to) cells) ≡ true }
    ensures cells { let cells = zip (count_from 0 width) (take width (drop (at * width) (numbers_in S.conversions letter.now.numbers.now))) in
        OnOk result (B.table target.new ≡ with_cells S.semiring mode B.FIXED (B.table target.old) (map (placed to) cells)) }
    ensures part { let cells = zip (count_from 0 width) (take width (drop (at * width) (numbers_in S.conversions letter.now.numbers.now))) in
        OnErr result (IsPartOf S.semiring mode B.FIXED (B.table target.old) (map (placed to) cells) (B.table target.new)) }
    ensures takes { B.takes target.new ≡ B.takes target.old }
    ensures shape { B.same_shape target.old target.new }
    ensures always { B.FIXED ≡ true → IsOk result }
{
    for col in 0..width {
        let value = number(letter, at * width as u64 + col as u64);
        target.combine(to, col as Gid, value, mode)?;
    }
    Ok(())
}

/// A row of a letter comes for local index `to`: the columns that stand from a word on, with the numbers from a number on.
pub(crate) fn combine_row<S: Scalar, B: DistTarget<S>>(
    letter: &Letter<'_>,
    first: u64,
    numbers: u64,
    count: u64,
    target: &mut B,
    to: u32,
    mode: Mode,
) -> Result<(), AllocError>
    requires columns { first + count ≤ length (words_of letter.now.words.now) }
    requires small { first + count < 2 ^ 64 }
    requires numbers { 32 * (numbers + count) ≤ length letter.now.numbers.now }
    requires taken { let cells = zip (take count (drop first (words_of letter.now.words.now))) (take count (drop numbers (numbers_in S.conversions letter.now.numbers.now))) in
        list_all (λ c. B.takes target.old c.row c.col) (map (placed to) cells) ≡ true }
    ensures cells { let cells = zip (take count (drop first (words_of letter.now.words.now))) (take count (drop numbers (numbers_in S.conversions letter.now.numbers.now))) in
        OnOk result (B.table target.new ≡ with_cells S.semiring mode B.FIXED (B.table target.old) (map (placed to) cells)) }
    ensures part { let cells = zip (take count (drop first (words_of letter.now.words.now))) (take count (drop numbers (numbers_in S.conversions letter.now.numbers.now))) in
        OnErr result (IsPartOf S.semiring mode B.FIXED (B.table target.old) (map (placed to) cells) (B.table target.new)) }
    ensures takes { B.takes target.new ≡ B.takes target.old }
    ensures shape { B.same_shape target.old target.new }
    ensures always { B.FIXED ≡ true → IsOk result }
{
    for k in 0..count {
        let col = word(letter, first + k);
        target.combine(to, col, number(letter, numbers + k), mode)?;
    }
    Ok(())
}

/// The entries of a letter that each have `width` numbers come for these positions, in the order of the list.
pub(crate) fn combine_nums<S: Scalar, B: DistTarget<S>>(
    letter: &Letter<'_>,
    width: u32,
    positions: &[u32],
    target: &mut B,
    mode: Mode,
) -> Result<(), AllocError>
    requires entries { length (words_of letter.now.words.now) ≡ length positions.now }
    requires numbers { length letter.now.numbers.now ≡ 32 * (length positions.now * width) }
    requires taken { let entries = numbered width (words_of letter.now.words.now) (numbers_in S.conversions letter.now.numbers.now) in
        list_all (λ c. B.takes target.old c.row c.col) (moved_cells entries (arrived_moves positions.now)) ≡ true }
    ensures cells { let entries = numbered width (words_of letter.now.words.now) (numbers_in S.conversions letter.now.numbers.now) in
        OnOk result (B.table target.new ≡ with_cells S.semiring mode B.FIXED (B.table target.old) (moved_cells entries (arrived_moves positions.now))) }
    ensures part { let entries = numbered width (words_of letter.now.words.now) (numbers_in S.conversions letter.now.numbers.now) in
        OnErr result (IsPartOf S.semiring mode B.FIXED (B.table target.old) (moved_cells entries (arrived_moves positions.now)) (B.table target.new)) }
    ensures takes { B.takes target.new ≡ B.takes target.old }
    ensures shape { B.same_shape target.old target.new }
    ensures always { B.FIXED ≡ true → IsOk result }
{
    for at in 0..positions.len() {
        combine_numbers(letter, at as u64, width, target, positions[at], mode)?;
    }
    Ok(())
}

/// The rows of a letter come for these positions, in the order of the list.
pub(crate) fn combine_rows<S: Scalar, B: DistTarget<S>>(
    letter: &Letter<'_>,
    positions: &[u32],
    target: &mut B,
    mode: Mode,
) -> Result<(), AllocError>
    requires few { length (words_of letter.now.words.now) < 2 ^ 64 }
    requires small { length letter.now.numbers.now < 2 ^ 64 }
    requires rows { (rows : List RowEntry) × AreRows (words_of letter.now.words.now) rows × (length rows ≡ length positions.now) × (length letter.now.numbers.now ≡ 32 * place_count rows) }
    requires taken { (rows : List RowEntry) → AreRows (words_of letter.now.words.now) rows
        → list_all (λ c. B.takes target.old c.row c.col) (moved_cells (with_numbers rows (numbers_in S.conversions letter.now.numbers.now)) (arrived_moves positions.now)) ≡ true }
    ensures cells { (rows : List RowEntry) → AreRows (words_of letter.now.words.now) rows
        → OnOk result (B.table target.new ≡ with_cells S.semiring mode B.FIXED (B.table target.old) (moved_cells (with_numbers rows (numbers_in S.conversions letter.now.numbers.now)) (arrived_moves positions.now))) }
    ensures part { (rows : List RowEntry) → AreRows (words_of letter.now.words.now) rows
        → OnErr result (IsPartOf S.semiring mode B.FIXED (B.table target.old) (moved_cells (with_numbers rows (numbers_in S.conversions letter.now.numbers.now)) (arrived_moves positions.now)) (B.table target.new)) }
    ensures takes { B.takes target.new ≡ B.takes target.old }
    ensures shape { B.same_shape target.old target.new }
    ensures always { B.FIXED ≡ true → IsOk result }
{
    let mut words_done = 0;
    let mut numbers_done = 0;
    for at in 0..positions.len() {
        let count = word(letter, words_done + 1);
        combine_row(
            letter,
            words_done + 2,
            numbers_done,
            count,
            target,
            positions[at],
            mode,
        )?;
        words_done += 2 + count;
        numbers_done += count;
    }
    Ok(())
}

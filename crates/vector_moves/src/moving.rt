//! What one rank does to move the rows of a vector.
ghost use Rattle.std.specs.Prelude.{◌≡◌, ◌<◌, ◌≤◌, ◌^◌, ◌++◌, ◌∷◌, ◌↔◌, [], ℕ, List, IsTrue, None, Some, length, map, count_by, true, IfOk, IfErr, IsOk, OnOk, OnErr};
ghost use Rattle.tables.specs.Indices.{AreBelow, AreDistinct};
ghost use Rattle.map_core.specs.Classes.{indices_at};
ghost use Rattle.map_core.specs.Plans.{export_list, remote_list};
ghost use Rattle.byte_pool.specs.Blocks.{free_block, has_room};
ghost use Rattle.byte_pool.specs.Leases.{IsLeastRoom, leases, sizes, with_lease};
ghost use Rattle.combine_modes.specs.Modes.{gathered};
ghost use Rattle.letter_codec.specs.Letters.{AreWords, IsLetter, letter_bytes};
ghost use Rattle.letter_codec.specs.Parts.{AreParts};
ghost use Rattle.distributor.specs.Arrivals.{IsOfKind};
ghost use Rattle.distributor.specs.Transfers.{nums_length, letter_lengths, IsPartReserved};
ghost use Rattle.multivector.specs.Vectors.{VectorState, IsVector, HasSameShape};
ghost use Rattle.vector_moves.specs.Rows.{by_index, rows_of, vector_letter, letter_vector};
ghost use Rattle.vector_moves.specs.Moves.{AreMoves, own_sources, own_targets, IsMoveFault};

use crate::MoveFault;
use byte_pool::{Lease, Pool};
use combine_modes::Mode;
use distributor::{AbsorbFault, Transfer};
use letter_codec::{Kind, Letter, read_letter, word_count};
use map_core::Plan;
use multivector::MultiVector;
use scalar_laws::Scalar;
use std::alloc::AllocError;

/// The transfer of vectors with as many columns as `x`, 1 to 16, by a plan. In the pool it reserves, for each rank that the
/// plan exports to, a block of the length of the letter to it, so that `pack` finds room. Each of these lengths is below
/// 2^64. `Err` means that memory ran out; then the blocks that were made stay free in the pool.
pub fn ready<S: Scalar>(
    x: &MultiVector<S>,
    plan: Plan,
    pool: &mut Pool,
) -> Result<Transfer, AllocError>
    requires some_column { 1 ≤ x.now.columns }
    requires columns_limit { x.now.columns ≤ 16 }
    requires letters_fit { (q : ℕ) → q < plan.ranks → nums_length (length (export_list plan q)) x.now.columns < 2 ^ 64 }
    ensures transfer { IfOk result (λ t. t ≡ record { plan = plan; width = Some x.now.columns }) }
    ensures reserved { OnOk result (pool.new ≡ pool.old ++ map free_block (letter_lengths x.now.columns plan.exports)) }
    ensures room { OnOk result ((q : ℕ) → 1 ≤ length (export_list plan q) → 1 ≤ count_by (has_room (nums_length (length (export_list plan q)) x.now.columns)) pool.new) }
    ensures part { OnErr result (IsPartReserved (letter_lengths x.now.columns plan.exports) pool.old pool.new) }
{
    Transfer::ready(plan, x.columns(), pool)
}

/// The transfer of vectors with as many columns as `x`, 1 to 16, by a plan. The letter to each rank has fewer than 2^64 bytes.
/// It takes no memory, and no block is reserved: `pack` needs room in the pool that it is given.
pub fn for_vectors<S: Scalar>(x: &MultiVector<S>, plan: Plan) -> Transfer
    requires some_column { 1 ≤ x.now.columns }
    requires columns_limit { x.now.columns ≤ 16 }
    requires letters_fit { (q : ℕ) → q < plan.ranks → nums_length (length (export_list plan q)) x.now.columns < 2 ^ 64 }
    ensures transfer { result ≡ record { plan = plan; width = Some x.now.columns } }
{
    Transfer::for_nums(plan, x.columns())
}

/// Combines the rows that stay on their rank with those of `y` at the same global index (`Tpetra::DistObject`, copy and
/// permute). All other rows stay. It takes no memory.
///
/// The plan's same and permuted positions are those of equal indices in the two maps, and both vectors have equally many
/// columns.
pub fn local<S: Scalar>(transfer: &Transfer, x: &MultiVector<S>, y: &mut MultiVector<S>, mode: Mode)
    requires columns { x.now.columns ≡ y.old.columns }
    requires moves { AreMoves x.now.map y.old.map (own_sources transfer.now.plan) (own_targets transfer.now.plan) }
    ensures rows { by_index y.new ≡ gathered S.semiring mode true (by_index y.old) (rows_of x.now (indices_at x.now.map (own_sources transfer.now.plan)) ∷ []) }
    ensures shape { HasSameShape y.old y.new }
{
    let _ = x.map().len();
    let _ = y.map().len();
    match transfer.local(x, y, mode) {
        Ok(()) => {}
        Err(_) => unreachable!(),
    }
}

/// The letter of the rows that the plan exports to a rank, in the order of their list, in a block that the pool lends. It
/// takes no memory.
///
/// The transfer is one for as many columns as `x` has, the plan exports some row to this rank, its positions are those of
/// `x`, and the pool has a free block with room for the letter. The least such block is lent, and all other leases keep
/// their bytes.
pub fn pack<S: Scalar>(transfer: &Transfer, x: &MultiVector<S>, to: u32, pool: &mut Pool) -> Lease
    requires rank { to < transfer.now.plan.ranks }
    requires columns { transfer.now.width ≡ Some x.now.columns }
    requires some_row { 1 ≤ length (export_list transfer.now.plan to) }
    requires sources { AreBelow (length x.now.map) (export_list transfer.now.plan to) }
    requires room { 1 ≤ count_by (has_room (nums_length (length (export_list transfer.now.plan to)) x.now.columns)) pool.old }
    ensures letter { leases pool.new ≡ with_lease (leases pool.old) result (vector_letter S.conversions x.now (export_list transfer.now.plan to)) }
    ensures fresh { leases pool.old result ≡ None }
    ensures least { IsLeastRoom (nums_length (length (export_list transfer.now.plan to)) x.now.columns) pool.old result }
    ensures sizes { sizes pool.new ≡ sizes pool.old }
{
    let _ = x.map();
    match transfer.pack(Kind::Nums, x, to, pool) {
        Ok(lease) => lease,
        Err(_) => unreachable!(),
    }
}

/// Whether a letter is one of rows that each have so many numbers.
fn has_rows(letter: &Letter<'_>, columns: u32) -> bool
    ensures rows { IsTrue result ↔ IsOfKind (Some columns) letter.now }
{
    match letter.kind {
        Kind::Nums => {
            letter.numbers.len() as u128 == 32 * (word_count(letter) as u128 * columns as u128)
        }
        _ => false,
    }
}

/// Combines the rows of a letter from a rank, given as its bytes, with those of `y` at the positions that the plan has for
/// this rank, none of them twice: row k at position k of the list. So rows of a vector whose positions have the same global
/// indices come to the rows of these indices. All other rows stay. It takes no memory.
///
/// The transfer is one for as many columns as `y` has, and the plan's positions are those of `y`. `NotALetter` comes exactly
/// where the bytes are no letter of rows with so many numbers, `NotThePlan` exactly where they are one of another number of
/// rows than the plan has positions; then all rows stay.
pub fn absorb<S: Scalar>(
    transfer: &Transfer,
    bytes: &[u8],
    from: u32,
    y: &mut MultiVector<S>,
    mode: Mode,
) -> Result<(), MoveFault>
    requires rank { from < transfer.now.plan.ranks }
    requires columns { transfer.now.width ≡ Some y.old.columns }
    requires targets { AreBelow (length y.old.map) (remote_list transfer.now.plan from) }
    ensures rows { (x : VectorState S) (froms : List ℕ) → IsVector x → AreDistinct x.map → x.columns ≡ y.old.columns
        → AreMoves x.map y.old.map froms (remote_list transfer.now.plan from) → bytes.now ≡ vector_letter S.conversions x froms
        → OnOk result (by_index y.new ≡ gathered S.semiring mode true (by_index y.old) (rows_of x (indices_at x.map froms) ∷ [])) }
    ensures letter { (words numbers : List ℕ) → IsLetter Kind.Nums words numbers → bytes.now ≡ letter_bytes Kind.Nums words numbers
        → AreDistinct (remote_list transfer.now.plan from)
        → OnOk result (by_index y.new ≡ gathered S.semiring mode true (by_index y.old) (rows_of (letter_vector S.conversions y.old (remote_list transfer.now.plan from) numbers) (indices_at y.old.map (remote_list transfer.now.plan from)) ∷ [])) }
    ensures always { (x : VectorState S) (froms : List ℕ) → IsVector x → x.columns ≡ y.old.columns
        → AreMoves x.map y.old.map froms (remote_list transfer.now.plan from) → bytes.now ≡ vector_letter S.conversions x froms
        → AreWords (indices_at x.map froms) → IsOk result }
    ensures fault { IfErr result (IsMoveFault y.old.columns bytes.now (length (remote_list transfer.now.plan from))) }
    ensures refused { OnErr result (by_index y.new ≡ by_index y.old) }
    ensures shape { HasSameShape y.old y.new }
{
    let _ = y.map().len();
    let Some(letter) = read_letter(bytes) else {
        return Err(MoveFault::NotALetter);
    };
    if !has_rows(&letter, y.columns()) {
        return Err(MoveFault::NotALetter);
    }
    match transfer.absorb(&letter, from, y, mode) {
        Ok(()) => Ok(()),
        Err(AbsorbFault::NotThePlan { have, want }) => Err(MoveFault::NotThePlan { have, want }),
        Err(AbsorbFault::NoMem) => unreachable!(),
    }
}

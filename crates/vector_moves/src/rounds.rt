//! Whole transfers on one pool.
ghost use Rattle.std.specs.Prelude.{◌≡◌, ◌<◌, ◌≤◌, ◌∷◌, [], Some, length, count_by, replicate, true, IsOk, OnOk, OnErr};
ghost use Rattle.map_core.specs.Classes.{indices_at};
ghost use Rattle.map_core.specs.Plans.{export_list, remote_list};
ghost use Rattle.byte_pool.specs.Blocks.{has_room};
ghost use Rattle.combine_modes.specs.Modes.{gathered};
ghost use Rattle.letter_codec.specs.Letters.{AreWords};
ghost use Rattle.distributor.specs.Transfers.{nums_length};
ghost use Rattle.multivector.specs.Vectors.{HasSameShape};
ghost use Rattle.vector_moves.specs.Rows.{by_index, rows_of};
ghost use Rattle.vector_moves.specs.Moves.{AreMoves};

use crate::MoveFault;
use crate::moving::{absorb, pack};
use byte_pool::Pool;
use combine_modes::Mode;
use distributor::Transfer;
use multivector::MultiVector;
use scalar_laws::Scalar;

/// Moves the rows that `sender`, the transfer of rank `from`, exports to rank `to`, whose transfer is `receiver`, from `x` to `y`
/// by a letter: each comes to the row of its global index and is combined there by the mode. All other rows of `y` stay, and
/// the pool is as it was: the block of the letter is free again. It takes no memory.
///
/// Both transfers are for the columns of the vectors, and the positions that the one exports have the same indices in `x`, in
/// their order, as those that the other receives have in `y`. It is `Ok` where these indices have 64 bits.
pub fn transfer<S: Scalar>(
    sender: &Transfer,
    x: &MultiVector<S>,
    from: u32,
    receiver: &Transfer,
    y: &mut MultiVector<S>,
    to: u32,
    mode: Mode,
    pool: &mut Pool,
) -> Result<(), MoveFault>
    requires from { from < receiver.now.plan.ranks }
    requires to { to < sender.now.plan.ranks }
    requires sent { sender.now.width ≡ Some x.now.columns }
    requires received { receiver.now.width ≡ Some y.old.columns }
    requires columns { x.now.columns ≡ y.old.columns }
    requires some_row { 1 ≤ length (export_list sender.now.plan to) }
    requires moves { AreMoves x.now.map y.old.map (export_list sender.now.plan to) (remote_list receiver.now.plan from) }
    requires room { 1 ≤ count_by (has_room (nums_length (length (export_list sender.now.plan to)) x.now.columns)) pool.old }
    ensures rows { OnOk result (by_index y.new ≡ gathered S.semiring mode true (by_index y.old) (rows_of x.now (indices_at x.now.map (export_list sender.now.plan to)) ∷ [])) }
    ensures always { AreWords (indices_at x.now.map (export_list sender.now.plan to)) → IsOk result }
    ensures refused { OnErr result (by_index y.new ≡ by_index y.old) }
    ensures shape { HasSameShape y.old y.new }
    ensures pool { pool.new ≡ pool.old }
{
    let _ = x.map().len();
    let lease = pack(sender, x, to, pool);
    let absorbed = absorb(receiver, pool.bytes(&lease), from, y, mode);
    pool.give_back(lease);
    absorbed
}

/// The same, so many times: each time the rows come once more. No lease stays, and the pool has the blocks that it had.
pub fn transfer_often<S: Scalar>(
    rounds: u32,
    sender: &Transfer,
    x: &MultiVector<S>,
    from: u32,
    receiver: &Transfer,
    y: &mut MultiVector<S>,
    to: u32,
    mode: Mode,
    pool: &mut Pool,
) -> Result<(), MoveFault>
    requires from { from < receiver.now.plan.ranks }
    requires to { to < sender.now.plan.ranks }
    requires sent { sender.now.width ≡ Some x.now.columns }
    requires received { receiver.now.width ≡ Some y.old.columns }
    requires columns { x.now.columns ≡ y.old.columns }
    requires some_row { 1 ≤ length (export_list sender.now.plan to) }
    requires moves { AreMoves x.now.map y.old.map (export_list sender.now.plan to) (remote_list receiver.now.plan from) }
    requires room { 1 ≤ count_by (has_room (nums_length (length (export_list sender.now.plan to)) x.now.columns)) pool.old }
    ensures rows { OnOk result (by_index y.new ≡ gathered S.semiring mode true (by_index y.old) (replicate rounds (rows_of x.now (indices_at x.now.map (export_list sender.now.plan to))))) }
    ensures always { AreWords (indices_at x.now.map (export_list sender.now.plan to)) → IsOk result }
    ensures shape { HasSameShape y.old y.new }
    ensures pool { pool.new ≡ pool.old }
{
    for _ in 0..rounds {
        transfer(sender, x, from, receiver, y, to, mode, pool)?;
    }
    Ok(())
}

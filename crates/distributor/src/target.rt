//! What takes cells.
ghost use Rattle.std.specs.Prelude.{◌≡◌, ℕ, Bool, true, OnOk, OnErr, IsOk};
ghost use Rattle.tables.specs.Tables.{Table};
ghost use Rattle.distributor.specs.Entries.{with_cell, HasTaken};

use combine_modes::Mode;
use map_core::Gid;
use scalar_laws::Scalar;
use std::alloc::AllocError;

/// Something that takes cells by local index and column: the unpacking half of `Tpetra::DistObject`. Contracts see it as
/// a finite map from these pairs to numbers, together with the pairs that it takes.
pub trait DistTarget<S: Scalar> {
    /// The number at each local index and column, or none.
    ghost table: { Self → Table S };

    /// Whether it takes a cell at this local index and column.
    ghost takes: { Self → ℕ → ℕ → Bool };

    /// Whether the second is the first but for the numbers that it has: what `combine` leaves.
    ghost same_shape: { Self → Self → Type 0 };

    ghost FIXED: { Bool };

    /// Whether each pair that it takes has a number, always. Then no cell is made and none is lost.
    const FIXED: bool;

    /// Combines one number with the cell at a local index and column, which it takes: as a cell of a vector where it is
    /// `FIXED`, and else as a place of a matrix. All other cells stay. `Err` means that memory ran out, and then all
    /// stays; it does not come where it is `FIXED`. The column counts as a global index.
    fn combine(&mut self, lid: u32, col: Gid, value: S, mode: Mode) -> Result<(), AllocError>
        requires taken { takes self.old lid col ≡ true }
        ensures cell { OnOk result (table self.new ≡ with_cell S.semiring mode FIXED (table self.old) lid col value) }
        ensures err { OnErr result (table self.new ≡ table self.old) }
        ensures takes { takes self.new ≡ takes self.old }
        ensures shape { same_shape self.old self.new }
        ensures fixed { FIXED ≡ true → HasTaken (takes self.old) (table self.old) }
        ensures always { FIXED ≡ true → IsOk result };

    ghost shape_refl: { (a : Self) → same_shape a a };

    ghost shape_trans: { (a b c : Self) → same_shape a b → same_shape b c → same_shape a c };
}

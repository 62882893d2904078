//! Rows of columns, one after the other.
ghost use Rattle.std.specs.Prelude.{◌≡◌, ◌++◌, ◌∷◌, [], OnOk, OnErr, IfOk};
ghost use Rattle.std.specs.List.{concat};
ghost use Rattle.crs_graph.specs.Packed.{offsets_of};

use map_core::Gid;
use std::alloc::{AllocError, Global};
use std::marker::Model;

/// Rows of global columns in one list, the first one first. Contracts see the list of the rows.
#[derive(Drop)]
pub struct PackedRows {
    offsets: Vec<usize>,
    gids: Vec<Gid>,
}

impl Model for PackedRows {
    ghost use Rattle.std.specs.Prelude.{ℕ, List};

    ghost Value = { List (List ℕ) };

    ghost use Rattle.crs_graph.specs.Packed.{slices, IsPacked};

    ghost view = { λ a. slices a.offsets.items a.gids.items };

    ghost invariant = { λ a. IsPacked a.offsets.items a.gids.items };
}

impl PackedRows {
    /// No rows, with room for so many. `Err` means that memory ran out.
    pub fn with_capacity(alloc: Global, rows: u32) -> Result<PackedRows, AllocError>
        ensures empty { IfOk result (λ packed. packed ≡ []) }
    {
        let mut offsets = Vec::with_capacity(alloc, rows as usize + 1)?;
        offsets.push(0)?;
        Ok(PackedRows {
            offsets,
            gids: Vec::new(alloc),
        })
    }

    /// Puts a row at the end. `Err` means that memory ran out; then nothing has changed.
    pub fn push_row(&mut self, row: &[Gid]) -> Result<(), AllocError>
        ensures row { OnOk result (self.new ≡ self.old ++ row.now ∷ []) }
        ensures unchanged { OnErr result (self.new ≡ self.old) }
    {
        let before = self.gids.len();
        self.gids.extend_from_slice(row)?;
        if self.offsets.push(self.gids.len()).is_err() {
            self.gids.truncate(before);
            return Err(AllocError);
        }
        Ok(())
    }

    /// All columns, one row after the other.
    pub(crate) fn all(&self) -> &[Gid]
        ensures all { result.now ≡ concat self.now }
    {
        &self.gids
    }

    /// Where each row begins, and where the last one ends.
    pub(crate) fn offsets(&self) -> &[usize]
        ensures offsets { result.now ≡ offsets_of self.now }
    {
        &self.offsets
    }

    /// The two lists.
    pub(crate) fn into_parts(self) -> (Vec<usize>, Vec<Gid>)
        ensures offsets { result.0.items ≡ offsets_of self }
        ensures all { result.1.items ≡ concat self }
    {
        (self.offsets, self.gids)
    }
}

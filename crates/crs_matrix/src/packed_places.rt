//! The places of rows, one row after the other.
ghost use Rattle.std.specs.Prelude.{◌≡◌, ◌+◌, ◌<◌, ◌++◌, ◌∷◌, [], length, OnOk, IfOk};
ghost use Rattle.std.specs.List.{slice_index_or};
ghost use Rattle.crs_graph.specs.Packed.{slices, IsPacked};
ghost use Rattle.crs_matrix.specs.Stored.{places_of};

use crate::matrix::part;
use crate::places::Place;
use smallvec::SmallVec;
use std::alloc::{AllocError, Global};
use std::marker::Model;

/// The places of rows in one list, the first row first. Contracts see the list of the rows.
#[derive(Drop)]
pub(crate) struct PackedPlaces {
    offsets: Vec<usize>,
    places: Vec<Place>,
}

impl Model for PackedPlaces {
    ghost use Rattle.std.specs.Prelude.{List};
    ghost use Rattle.crs_graph.specs.Packed.{slices, IsPacked};
    ghost use Rattle.crs_matrix.specs.declared.places.Place.{Place as RowPlace};

    ghost Value = { List (List RowPlace) };

    ghost view = { λ a. slices a.offsets.items a.places.items };

    ghost invariant = { λ a. IsPacked a.offsets.items a.places.items };
}

impl PackedPlaces {
    /// No rows, with room for so many, which have so many places. `Err` means that memory ran out.
    fn with_capacity(alloc: Global, rows: u32, places: usize) -> Result<PackedPlaces, AllocError>
        ensures empty { IfOk result (λ packed. packed ≡ []) }
    {
        let mut offsets = Vec::with_capacity(alloc, rows as usize + 1)?;
        offsets.push(0)?;
        Ok(PackedPlaces {
            offsets,
            places: Vec::with_capacity(alloc, places)?,
        })
    }

    /// Puts a row at the end. `Err` means that memory ran out.
    fn push_row(&mut self, row: &[Place]) -> Result<(), AllocError>
        ensures row { OnOk result (self.new ≡ self.old ++ row.now ∷ []) }
    {
        let before = self.places.len();
        self.places.extend_from_slice(row)?;
        if self.offsets.push(self.places.len()).is_err() {
            self.places.truncate(before);
            return Err(AllocError);
        }
        Ok(())
    }

    /// The places of a row. Rows are counted from 0.
    #[inline]
    pub(crate) fn row_at(&self, lid: u32) -> &[Place]
        requires known { lid < length self.now }
        ensures row { result.now ≡ slice_index_or self.now lid [] }
    {
        row_of(&self.offsets, &self.places, lid as usize)
    }
}

/// One of the rows that stand one after the other in a list.
#[inline]
fn row_of<'a>(offsets: &[usize], list: &'a [Place], row: usize) -> &'a [Place]
    requires packed { IsPacked offsets.now list.now }
    requires known { row + 1 < length offsets.now }
    ensures row { result.now ≡ slice_index_or (slices offsets.now list.now) row [] }
{
    part(list, offsets[row], offsets[row + 1])
}

/// The places of `count` rows in one list, where there are about so many places; the vectors are given up. `Err` means that
/// memory ran out.
pub(crate) fn packed_places(
    alloc: Global,
    count: u32,
    rows: Vec<SmallVec<Place, 8>>,
    places: usize,
) -> Result<PackedPlaces, AllocError>
    ensures rows { IfOk result (λ packed. packed ≡ places_of rows.items) }
{
    let mut packed = PackedPlaces::with_capacity(alloc, count, places)?;
    for row in &rows {
        packed.push_row(row.as_slice())?;
    }
    Ok(packed)
}

//! The vector itself.
ghost use Rattle.std.specs.Prelude.{◌≡◌, ◌<◌, ◌+◌, ◌*◌, Some, length, slice_set, replicate, IfOk};
ghost use Rattle.tables.specs.Tables.{with_place};
ghost use Rattle.multivector.specs.Vectors.{IsVector, combination, combined_values, vector_entries, vector_table, has_cell, HasSameShape};

use combine_modes::{Mode, vector_cell};
use distributor::{DistSource, DistTarget};
use map_core::{Gid, LocalMap};
use scalar_laws::Scalar;
use std::alloc::{AllocError, Global};
use std::marker::Model;
use std::rc::Rc;

/// A vector of one or more columns on the indices of a map (`Tpetra::MultiVector`, on one rank): for each local index a
/// row of numbers. Local indices and columns are counted from 0.
#[derive(Drop)]
pub struct MultiVector<S> {
    alloc: Global,
    map: Rc<LocalMap>,
    columns: u32,
    values: Vec<S>,
}

impl<S> Model for MultiVector<S> {
    ghost use Rattle.multivector.specs.Vectors.{VectorState, IsVector};

    ghost Value = { VectorState S };

    ghost view = { λ v. record { map = v.map.value; columns = v.columns; values = v.values.items } };

    ghost invariant = { λ v. IsVector (record { map = v.map.value; columns = v.columns; values = v.values.items }) };
}

impl<S: Scalar> MultiVector<S> {
    /// The vector on a map that has `value` in each of its cells. `Err` means that memory ran out.
    pub fn new(
        alloc: Global,
        map: Rc<LocalMap>,
        columns: u32,
        value: S,
    ) -> Result<MultiVector<S>, AllocError>
        ensures vector { IfOk result (λ v. v ≡ record { map = map.value; columns = columns; values = replicate (length map.value * columns) value }) }
    {
        let count = map.len() as usize * columns as usize;
        let mut values = Vec::new(alloc);
        values.resize(count, value)?;
        Ok(MultiVector {
            alloc,
            map,
            columns,
            values,
        })
    }

    /// The map on whose indices it is.
    pub fn map(&self) -> &Rc<LocalMap>
        ensures map { result.now.value ≡ self.now.map }
        ensures is_vector { IsVector self.now }
    {
        &self.map
    }

    /// How many columns it has.
    pub fn columns(&self) -> u32
        ensures columns { result ≡ self.now.columns }
    {
        self.columns
    }

    /// Where the number of a cell stands.
    #[inline]
    fn place_of(&self, lid: u32, col: Gid) -> usize
        requires row { lid < length self.now.map }
        requires column { col < self.now.columns }
        ensures place { result ≡ lid * self.now.columns + col }
        ensures within { result < length self.now.values }
    {
        lid as usize * self.columns as usize + col as usize
    }

    /// The number at a local index of the map and a column. It takes no memory.
    #[inline]
    pub fn cell(&self, lid: u32, col: u32) -> S
        requires row { lid < length self.now.map }
        requires column { col < self.now.columns }
        ensures cell { vector_table self.now lid col ≡ Some result }
    {
        self.values[self.place_of(lid, col as Gid)]
    }

    /// Gives the cell at a local index of the map and a column another number. All other cells stay. It takes no memory.
    #[inline]
    pub fn set(&mut self, lid: u32, col: u32, value: S)
        requires row { lid < length self.old.map }
        requires column { col < self.old.columns }
        ensures cell { vector_table self.new ≡ with_place (vector_table self.old) lid col (Some value) }
        ensures values { self.new ≡ record self.old { values = slice_set self.old.values (lid * self.old.columns + col) value } }
    {
        let at = self.place_of(lid, col as Gid);
        self.values[at] = value;
    }

    /// Each cell becomes `alpha` times that of `v` plus `beta` times its own (`Tpetra::MultiVector::update`). The two have
    /// equal maps and as many columns. It takes no memory.
    pub fn update(&mut self, alpha: S, v: &MultiVector<S>, beta: S)
        requires map { v.now.map ≡ self.old.map }
        requires columns { v.now.columns ≡ self.old.columns }
        ensures cells { vector_table self.new ≡ combination S.semiring alpha (vector_table v.now) beta (vector_table self.old) }
        ensures values { self.new ≡ record self.old { values = combined_values S.semiring alpha v.now.values beta self.old.values } }
    {
        combine_values(&mut self.values, alpha, &v.values, beta);
    }

    /// The vector of `alpha` times each cell of `x` plus `beta` times that of `y`. The two have equal maps and as many columns; it is
    /// on the map of `y`. Both stay as they are. `Err` means that memory ran out.
    pub fn combined(
        alpha: S,
        x: &MultiVector<S>,
        beta: S,
        y: &MultiVector<S>,
    ) -> Result<MultiVector<S>, AllocError>
        requires map { x.now.map ≡ y.now.map }
        requires columns { x.now.columns ≡ y.now.columns }
        ensures map { IfOk result (λ v. v.map ≡ y.now.map) }
        ensures columns { IfOk result (λ v. v.columns ≡ y.now.columns) }
        ensures cells { IfOk result (λ v. vector_table v ≡ combination S.semiring alpha (vector_table x.now) beta (vector_table y.now)) }
    {
        let values = sums_of(y.alloc, alpha, &x.values, beta, &y.values)?;
        Ok(MultiVector {
            alloc: y.alloc,
            map: y.map.clone()?,
            columns: y.columns,
            values,
        })
    }

    /// The same vector once more: it has cells of its own, and shares the map. `Err` means that memory ran out.
    pub fn copy(&self) -> Result<MultiVector<S>, AllocError>
        ensures same { IfOk result (λ v. v ≡ self.now) }
    {
        let values = Vec::from_slice(self.alloc, &self.values)?;
        Ok(MultiVector {
            alloc: self.alloc,
            map: self.map.clone()?,
            columns: self.columns,
            values,
        })
    }
}

impl<S: Scalar> DistSource<S> for MultiVector<S> {
    ghost entries = { λ v. vector_entries v };

    #[inline]
    fn gid(&self, lid: u32) -> Gid {
        match self.map.global_of(lid) {
            Some(gid) => gid,
            None => unreachable!(),
        }
    }

    #[inline]
    fn count(&self, lid: u32) -> u64 {
        self.columns as u64
    }

    #[inline]
    fn cell(&self, lid: u32, at: u64) -> (Gid, S) {
        (at, self.values[self.place_of(lid, at)])
    }
}

impl<S: Scalar> DistTarget<S> for MultiVector<S> {
    ghost use Rattle.std.specs.Prelude.{true, refl};
    ghost use Rattle.std.proofs.Common.{◌∙◌};

    ghost table = { λ v. vector_table v };

    ghost takes = { λ v. has_cell v };

    ghost same_shape = { HasSameShape };

    ghost FIXED = { true };

    const FIXED: bool = true;

    #[inline]
    fn combine(&mut self, lid: u32, col: Gid, value: S, mode: Mode) -> Result<(), AllocError> {
        let at = self.place_of(lid, col);
        self.values[at] = vector_cell(self.values[at], value, mode);
        Ok(())
    }

    ghost shape_refl = { λ a. (refl, refl) };

    ghost shape_trans = { λ a b c first second. (second.0 ∙ first.0, second.1 ∙ first.1) };
}

/// Each number becomes `alpha` times that of `others` plus `beta` times itself.
fn combine_values<S: Scalar>(values: &mut [S], alpha: S, others: &[S], beta: S)
    requires alike { length others.now ≡ length values.old }
    ensures values { values.new ≡ combined_values S.semiring alpha others.now beta values.old }
{
    for i in 0..values.len() {
        let own = beta.mul(values[i]);
        values[i] = alpha.mul(others[i]).add(own);
    }
}

/// `alpha` times each number of `xs` plus `beta` times that of `ys`. `Err` means that memory ran out.
fn sums_of<S: Scalar>(
    alloc: Global,
    alpha: S,
    xs: &[S],
    beta: S,
    ys: &[S],
) -> Result<Vec<S>, AllocError>
    requires alike { length xs.now ≡ length ys.now }
    ensures values { IfOk result (λ values. values.items ≡ combined_values S.semiring alpha xs.now beta ys.now) }
{
    let mut values = Vec::with_capacity(alloc, ys.len())?;
    for i in 0..ys.len() {
        let own = beta.mul(ys[i]);
        values.push(alpha.mul(xs[i]).add(own))?;
    }
    Ok(values)
}

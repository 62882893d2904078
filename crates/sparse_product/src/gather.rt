//! Rows of a product, gathered.
ghost use Rattle.std.specs.Prelude.{◌≡◌, ◌<◌, [], ℕ, List, length, OnOk};
ghost use Rattle.tables.specs.Indices.{AreBelow};
ghost use Rattle.std.specs.List.{slice_index_or, zip};
ghost use Rattle.tables.specs.Sums.{both_or_one, if_there, total};
ghost use Rattle.crs_graph.specs.Ascending.{IsAscending};
ghost use Rattle.sparse_product.specs.Dense.{number_under};
ghost use Rattle.sparse_product.specs.Rows.{linked_cells, scaled_at, AreLinks};

use crate::dense_row::DenseRow;
use crate::linked_rows::LinkedRows;
use scalar_laws::Scalar;
use std::alloc::AllocError;

/// Adds row k of the links, times a factor, to a row. `Err` means that memory ran out.
fn add_scaled<S: Scalar>(
    row: &mut DenseRow<S>,
    factor: S,
    links: &LinkedRows<S>,
    k: u32,
) -> Result<(), AllocError>
    requires known { k < length links.now }
    requires within { AreLinks (length row.old) (slice_index_or links.now k []) }
    ensures size { OnOk result (length row.new ≡ length row.old) }
    ensures sum { OnOk result ((columns : List ℕ) → IsAscending columns → length columns ≡ length row.old → (j : ℕ)
        → number_under columns row.new j ≡ both_or_one S.semiring.plus (number_under columns row.old j) (scaled_at S.semiring factor (linked_cells columns (slice_index_or links.now k [])) j)) }
{
    for at in 0..links.count(k) {
        let (place, number) = links.link(k, at);
        row.add(place, factor.mul(number))?;
    }
    Ok(())
}

/// Adds rows of the links to a row: those with these numbers, counted from 0, each times its factor. `Err` means that
/// memory ran out.
pub(crate) fn gather<S: Scalar>(
    row: &mut DenseRow<S>,
    ks: &[u32],
    factors: &[S],
    links: &LinkedRows<S>,
) -> Result<(), AllocError>
    requires each { length factors.now ≡ length ks.now }
    requires known { AreBelow (length links.now) ks.now }
    requires within { (k : ℕ) → AreLinks (length row.old) (slice_index_or links.now k []) }
    ensures size { OnOk result (length row.new ≡ length row.old) }
    ensures sum { OnOk result ((columns : List ℕ) → IsAscending columns → length columns ≡ length row.old → (j : ℕ)
        → number_under columns row.new j ≡ both_or_one S.semiring.plus (number_under columns row.old j)
        (total (if_there S.semiring.plus) (λ c. scaled_at S.semiring c.1 (linked_cells columns (slice_index_or links.now c.0 [])) j) (zip ks.now factors.now))) }
{
    for i in 0..ks.len() {
        add_scaled(row, factors[i], links, ks[i])?;
    }
    Ok(())
}

//! Matrices with the plans of their structure, once more.
ghost use Rattle.std.specs.Prelude.{◌≡◌, IfOk};
ghost use Rattle.crs_matrix.specs.Matrices.{crs_table};
ghost use Rattle.model_defs.specs.Operations.{scaled};
ghost use Rattle.rank_pieces.specs.Steps.{IsOnStructureOf};

use crate::pieces::RankMatrix;
use map_core::Plan;
use rank_matrices::scaled_matrix;
use scalar_laws::Scalar;
use std::alloc::AllocError;

/// The plan once more, if there is one: its lists are shared.
fn share_rows(plan: &Option<Plan>) -> Result<Option<Plan>, AllocError>
    ensures same { IfOk result (λ p. p ≡ plan.now) }
{
    match plan {
        Some(rows) => Ok(Some(rows.share()?)),
        None => Ok(None),
    }
}

/// The same matrix once more: it has numbers of its own, and shares the structure and its plans. `Err` means that memory ran out.
pub fn copy_matrix<S: Scalar>(m: &RankMatrix<S>) -> Result<RankMatrix<S>, AllocError>
    ensures same { IfOk result (λ copy. copy ≡ m.now) }
{
    Ok(RankMatrix {
        matrix: m.matrix.copy()?,
        columns: m.columns.share()?,
        rows: share_rows(&m.rows)?,
    })
}

/// `alpha` times a matrix, which stays as it is: the two share the structure and its plans. `Err` means that memory ran out.
pub(crate) fn scaled_copy<S: Scalar>(
    alpha: S,
    m: &RankMatrix<S>,
) -> Result<RankMatrix<S>, AllocError>
    ensures scaled { IfOk result (IsOnStructureOf m.now (scaled S.semiring alpha (crs_table m.now.matrix))) }
{
    Ok(RankMatrix {
        matrix: scaled_matrix(alpha, &m.matrix)?,
        columns: m.columns.share()?,
        rows: share_rows(&m.rows)?,
    })
}

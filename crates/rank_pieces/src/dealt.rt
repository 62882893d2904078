//! The part of a given matrix that is dealt to a rank.
ghost use Rattle.std.specs.Prelude.{◌≡◌, ◌<◌, ◌≤◌, ◌+◌, ℕ, List, IfOk};
ghost use Rattle.crs_matrix.specs.Rows.{row_table};
ghost use Rattle.mm_text.specs.Reading.{File};
ghost use Rattle.model_defs.specs.declared.job.MatrixSpec.{MatrixSpec};
ghost use Rattle.model_defs.specs.Given.{dealt_part};
ghost use Rattle.model_defs.specs.Makers.{GivenMatrix, maker_of, value_count};
ghost use Rattle.model_defs.specs.Plans.{rank_rows};
ghost use Rattle.rank_share.specs.Shares.{cell_count};
ghost use Rattle.rank_matrices.specs.Laws.{dealt_lines};
ghost use Rattle.rank_pieces.specs.Inputs.{IsRankInput};

use crs_matrix::MatrixFill;
use map_core::Gid;
use mm_text::Line;
use model_defs::Job;
use rank_matrices::{fill_of_lines, rows_of_lines};
use rank_share::Share;
use scalar_laws::Scalar;
use std::alloc::{AllocError, Global};

/// The place of value k among the given matrices.
fn place_of(job: &Job, k: usize) -> usize
    requires behind { cell_count job.now ≤ k }
    ensures place { k ≡ cell_count job.now + result }
{
    k - job.vectors.as_slice().len() - job.parts.as_slice().len()
}

/// The lines of the file of a given matrix that are dealt to the rank.
fn lines_of<'a, S: Scalar>(job: &Job, me: u32, share: &'a Share, k: usize) -> &'a [Line]
    requires input { (files : List File) × IsRankInput S.conversions job.now files me share.now }
    requires known { k < value_count job.now }
    requires matrix { (spec : MatrixSpec) × (maker_of job.now k ≡ GivenMatrix spec) }
    ensures lines { (files : List File) → IsRankInput S.conversions job.now files me share.now → result.now ≡ dealt_lines job.now files k me }
{
    let at = place_of(job, k);
    share.places.as_slice()[at].as_slice()
}

/// The part of a given matrix that is dealt to the rank: the matrix under construction of the entries of its file that the rank is
/// given, before any row is brought to its owner. Its rows are those of the rank in the row plan of the matrix, ascending. `Err`
/// means that memory ran out.
pub fn dealt_fill<S: Scalar>(
    alloc: Global,
    job: &Job,
    me: u32,
    share: &Share,
    k: usize,
) -> Result<MatrixFill<S>, AllocError>
    requires input { (files : List File) × IsRankInput S.conversions job.now files me share.now }
    requires known { k < value_count job.now }
    requires matrix { (spec : MatrixSpec) × (maker_of job.now k ≡ GivenMatrix spec) }
    ensures rows { IfOk result (λ m. (files : List File) → IsRankInput S.conversions job.now files me share.now
        → m.rows ≡ rank_rows job.now files k me) }
    ensures table { IfOk result (λ m. (files : List File) → IsRankInput S.conversions job.now files me share.now
        → row_table m ≡ dealt_part S.semiring S.conversions job.now files k me) }
{
    fill_of_lines(alloc, lines_of::<S>(job, me, share, k))
}

/// The rows of a given matrix in which entries are dealt to the rank, ascending: its rows in the row plan of the matrix. `Err` means
/// that memory ran out.
pub fn dealt_rows<S: Scalar>(
    alloc: Global,
    job: &Job,
    me: u32,
    share: &Share,
    k: usize,
) -> Result<Vec<Gid>, AllocError>
    requires input { (files : List File) × IsRankInput S.conversions job.now files me share.now }
    requires known { k < value_count job.now }
    requires matrix { (spec : MatrixSpec) × (maker_of job.now k ≡ GivenMatrix spec) }
    ensures rows { IfOk result (λ rows. (files : List File) → IsRankInput S.conversions job.now files me share.now
        → rows.items ≡ rank_rows job.now files k me) }
{
    rows_of_lines(alloc, lines_of::<S>(job, me, share, k))
}

//! The cells of a matrix as they are printed.
ghost use Rattle.std.specs.Prelude.{◌≡◌, true, false, map, IfOk, IfErr, OnOk};
ghost use Rattle.std.specs.List.{list_any};
ghost use Rattle.model_defs.specs.ShowText.{shown_cell};
ghost use Rattle.tpx.specs.Steps.{StopsShowing};

use crate::fault::Fault;
use mm_text::Shown;
use scalar_laws::Scalar;
use std::alloc::Global;
use tables::Cell;

/// The cells with the integers that they show, or `Overflow` exactly where a number is over. Only `Memory` may come
/// beside.
pub fn shown_cells<'a, S: Scalar>(alloc: Global, cells: &[Cell<S>]) -> Result<Vec<Shown>, Fault<'a>>
    ensures shown { IfOk result (λ v. v.items ≡ map (shown_cell S.conversions) cells.now) }
    ensures none_over { OnOk result (list_any (λ c. S.conversions.is_over c.value) cells.now ≡ false) }
    ensures fault { IfErr result (StopsShowing (list_any (λ c. S.conversions.is_over c.value) cells.now)) }
{
    let mut shown = Vec::with_capacity(alloc, cells.len())?;
    for cell in cells {
        let value = match cell.value.shown() {
            Some(value) => value,
            None => return Err(Fault::Overflow),
        };
        shown.push(Shown {
            row: cell.row,
            col: cell.col,
            value,
        })?;
    }
    Ok(shown)
}

//! The printed values of a run as the writers of Matrix Market text take them.
ghost use Rattle.std.specs.Prelude.{◌≡◌, IfOk, All, map};
ghost use Rattle.std.specs.List.{flat_map};
ghost use Rattle.outside.specs.Writes.{Writes};
ghost use Rattle.model_defs.specs.Sheets.{sheet_text};
ghost use Rattle.run_output.specs.Pages.{IsReady, IsWritable, page_text};

use mm_text::{Shown, SinkFault, write_array, write_coordinate};
use model_defs::{ListOf, Sheet, SheetKind};
use outside::Sink;
use std::alloc::{AllocError, Global};

/// A printed value, or one part of it, with all that its writer takes. Rows and columns count from 0.
#[derive(Debug, Drop)]
pub enum Page {
    /// Places with their values, by row and then column; where they are one rank's part, `part` is this rank.
    Coordinate {
        rows: u64,
        cols: u64,
        part: Option<u32>,
        cells: ListOf<Shown>,
    },
    /// The values of a dense array, column by column.
    Array {
        rows: u32,
        cols: u32,
        values: ListOf<i128>,
    },
}

/// The values of cells, in their order.
fn values_of(alloc: Global, cells: &[Shown]) -> Result<Vec<i128>, AllocError>
    ensures { IfOk result (λ values. values.items ≡ map (λ c. c.value) cells.now) }
{
    let mut values = Vec::with_capacity(alloc, cells.len())?;
    for cell in cells {
        let Shown { value, .. } = *cell;
        values.push(value)?;
    }
    Ok(values)
}

/// The page of a sheet.
fn page_of(alloc: Global, sheet: Sheet) -> Result<Page, AllocError>
    requires { IsWritable sheet }
    ensures text { IfOk result (λ page. page_text page ≡ sheet_text sheet) }
    ensures ready { IfOk result IsReady }
{
    let Sheet {
        kind,
        rows,
        cols,
        part,
        cells,
    } = sheet;
    match kind {
        SheetKind::Coordinate => Ok(Page::Coordinate {
            rows,
            cols,
            part,
            cells,
        }),
        SheetKind::Array => {
            let values = values_of(alloc, cells.as_slice())?;
            Ok(Page::Array {
                rows: rows as u32,
                cols: cols as u32,
                values: ListOf::new(values),
            })
        }
    }
}

/// The pages of sheets, in order, with all memory that their writing needs. `Err` means that memory ran out.
///
/// An array has a value for each of its places, and at most 2^32 - 1 rows and as many columns; the cells of any other
/// sheet lie within its sizes, in ascending order of row and column.
pub fn pages_of(alloc: Global, sheets: Vec<Sheet>) -> Result<Vec<Page>, AllocError>
    requires { All IsWritable sheets.items }
    ensures text { IfOk result (λ pages. flat_map page_text pages.items ≡ flat_map sheet_text sheets.items) }
    ensures ready { IfOk result (λ pages. All IsReady pages.items) }
{
    let mut pages = Vec::with_capacity(alloc, sheets.len())?;
    for sheet in sheets {
        pages.push(page_of(alloc, sheet)?)?;
    }
    Ok(pages)
}

/// Writes one page.
fn write_page<O: Sink>(out: &mut O, page: &Page) -> Result<(), SinkFault>
    requires { IsReady page.now }
    ensures { Writes O.told O.faults out.old out.new (page_text page.now) result }
{
    match page {
        Page::Array { rows, cols, values } => write_array(out, *rows, *cols, values.as_slice()),
        Page::Coordinate {
            rows,
            cols,
            part,
            cells,
        } => write_coordinate(out, *rows, *cols, *part, cells.as_slice()),
    }
}

/// Writes pages, one after the other. The call takes no memory.
///
/// A `SinkFault` comes exactly where a write failed, and then the sink has taken a prefix of the text.
pub fn write_pages<O: Sink>(out: &mut O, pages: &[Page]) -> Result<(), SinkFault>
    requires { All IsReady pages.now }
    ensures { Writes O.told O.faults out.old out.new (flat_map page_text pages.now) result }
{
    for page in pages {
        write_page(out, page)?;
    }
    Ok(())
}

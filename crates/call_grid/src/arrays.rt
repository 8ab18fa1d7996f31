// The arrays in which a sheet is read and a grid made, of four sizes. They are cleared with each call, and for a short sheet short ones do.
ghost use Rattle.std.specs.Prelude.{◌≤◌, Some, Result};
ghost use Rattle.common.specs.Limits.{max_entries, max_lines};
ghost use Rattle.sheet.specs.inner.Steps.{line_bound};
ghost use Rattle.sheet_load.specs.Opening.{open_checks};
ghost use Rattle.sheet_load.specs.inner.Measures.{Decided, Tried};
ghost use Rattle.call_grid.specs.inner.Found.{GridCapacity, GridFound};

use super::made::{answer_of, write_grid};
use answers::Grid;
use common::{MAX_ENTRIES, MAX_LINES, Refusal};
use sheet_load::{FEW_LINES, MANY_LINES, SMALL_LINES};

// The grid of the table in a line of a sheet, in arrays of L lines and rows and E entries; none, if they do not suffice for the sheet's tables. `row` is scratch
// until it is written. It is never taken into its caller's frame: so a small sheet does not pay for the arrays of a large one.
#[inline(never)]
fn grid_in<const L: usize, const E: usize>(
    sheet: &[u8],
    line: u32,
    cell: &mut [u32],
    first: &mut [u32],
    span: &mut [u32],
    row: &mut [u32],
    row_end: &mut [u32],
) -> Result<Option<Grid>, Refusal>
    requires lines_capacity { line_bound sheet.now ≤ L }
    requires sizes { (L ≤ max_lines) × (E ≤ max_entries) }
    requires grid_capacity { GridCapacity cell.old first.old span.old row.old row_end.old }
    ensures tried { Tried (λ r. GridFound (open_checks (Some line) sheet.now) sheet.now line r
        cell.new first.new span.new row.new row_end.new) result }
    ensures any { max_entries ≤ E → max_lines ≤ L → Decided result }
{
    let mut lines = [records::NO_NODE; L];
    let mut entries = [records::NO_ENTRY; E];
    let mut rows = [records::NO_ROW; L];
    let n = sheet_load::open_sheet(sheet, Some(line), &mut lines, row)?;
    let lines = &lines[..n];
    if !sheet_load::measuring::enough(lines, E, L) {
        return Ok(None);
    }
    let at = (line - 1) as usize;
    let counts = grid_plain::make(lines, at, &mut entries, &mut rows);
    let grid = counts.records(&entries, &rows);
    write_grid(grid, cell, first, span, row, row_end);
    Ok(Some(answer_of(grid)))
}

// The grid in short arrays, if the sheet has few lines. Each call chooses for itself: one function for all would take a closure for each size,
// which would all hold the lent buffers.
fn grid_short(
    sheet: &[u8],
    line: u32,
    cell: &mut [u32],
    first: &mut [u32],
    span: &mut [u32],
    row: &mut [u32],
    row_end: &mut [u32],
) -> Result<Option<Grid>, Refusal>
    requires { GridCapacity cell.old first.old span.old row.old row_end.old }
    ensures { Tried (λ r. GridFound (open_checks (Some line) sheet.now) sheet.now line r
        cell.new first.new span.new row.new row_end.new) result }
{
    let lines = sheet_load::most_lines(sheet);
    if lines <= FEW_LINES {
        grid_in::<FEW_LINES, SMALL_LINES>(sheet, line, cell, first, span, row, row_end)
    } else if lines <= SMALL_LINES {
        grid_in::<SMALL_LINES, SMALL_LINES>(sheet, line, cell, first, span, row, row_end)
    } else if lines <= MANY_LINES {
        grid_in::<MANY_LINES, MAX_ENTRIES>(sheet, line, cell, first, span, row, row_end)
    } else {
        Ok(None)
    }
}

// The grid in short arrays if they suffice, and else in the longest.
// In each call by itself, for the reason at `grid_short`.
pub fn grid_within(
    sheet: &[u8],
    line: u32,
    cell: &mut [u32],
    first: &mut [u32],
    span: &mut [u32],
    row: &mut [u32],
    row_end: &mut [u32],
) -> Result<Grid, Refusal>
    requires { GridCapacity cell.old first.old span.old row.old row_end.old }
    ensures { GridFound (open_checks (Some line) sheet.now) sheet.now line result
        cell.new first.new span.new row.new row_end.new }
{
    let tried = grid_short(sheet, line, cell, first, span, row, row_end)?;
    if let Some(grid) = tried {
        return Ok(grid);
    }
    let tried = grid_in::<MAX_LINES, MAX_ENTRIES>(sheet, line, cell, first, span, row, row_end)?;
    Ok(tried.unwrap())
}

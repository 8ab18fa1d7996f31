// The call `joined_grid`: the grid of two tables of a sheet side by side.
ghost use Rattle.std.specs.Prelude.{◌≡◌, ◌∷◌};
ghost use Rattle.sheet_figures.specs.inner.Early.{early};
ghost use Rattle.call_grid.specs.inner.Found.{GridCapacity};
ghost use Rattle.call_joined.specs.Joined.{two_checks, JoinedGridAnswer};
ghost use Rattle.call_joined.specs.inner.Found.{JoinedGridFound};

use answers::Grid;
use call_grid::made::{answer_of, write_grid};
use common::{MAX_ENTRIES, MAX_LINES, Refusal};

// The joined grid of the tables in two lines. `row` is scratch until it is written.
fn grid_of(
    sheet: &[u8],
    left: u32,
    right: u32,
    cell: &mut [u32],
    first: &mut [u32],
    span: &mut [u32],
    row: &mut [u32],
    row_end: &mut [u32],
) -> Result<Grid, Refusal>
    requires { GridCapacity cell.old first.old span.old row.old row_end.old }
    ensures { JoinedGridFound (two_checks sheet.now left right) sheet.now left right result
        cell.new first.new span.new row.new row_end.new }
{
    let mut lines = [records::NO_NODE; MAX_LINES];
    let mut entries = [records::NO_ENTRY; MAX_ENTRIES];
    let mut rows = [records::NO_ROW; MAX_LINES];
    let n = sheet_load::open_two(sheet, left, right, &mut lines, row)?;
    let l = (left - 1) as usize;
    let r = (right - 1) as usize;
    let made = joined_tables::make(&lines[..n], l, r, &mut entries, &mut rows);
    let counts = made.map_err(|why| why.at(left))?;
    let grid = counts.records(&entries, &rows);
    write_grid(grid, cell, first, span, row, row_end);
    Ok(answer_of(grid))
}

// What is found in the sheet, unless the arguments are refused.
fn find_grid(
    sheet: &[u8],
    left: u32,
    right: u32,
    asked: Result<(), Refusal>,
    cell: &mut [u32],
    first: &mut [u32],
    span: &mut [u32],
    row: &mut [u32],
    row_end: &mut [u32],
) -> Result<Grid, Refusal>
    requires { asked ≡ Ok tt → GridCapacity cell.old first.old span.old row.old row_end.old }
    ensures { JoinedGridFound (early asked ∷ two_checks sheet.now left right) sheet.now left right result
        cell.new first.new span.new row.new row_end.new }
{
    asked?;
    grid_of(sheet, left, right, cell, first, span, row, row_end)
}

// The grid of the tables in two lines, joined: the line, the first column and the span of each entry, and the line and the end of each row.
pub fn joined_grid(
    sheet: &[u8],
    left: u32,
    right: u32,
    cell: &mut [u32],
    first: &mut [u32],
    span: &mut [u32],
    row: &mut [u32],
    row_end: &mut [u32],
) -> Result<Grid, Refusal>
    ensures { JoinedGridAnswer sheet.now left right
        cell.old first.old span.old row.old row_end.old result
        cell.new first.new span.new row.new row_end.new }
{
    let asked = arguments::of_grid(
        cell.len(),
        first.len(),
        span.len(),
        row.len(),
        row_end.len(),
    );
    let found = find_grid(sheet, left, right, asked, cell, first, span, row, row_end);
    let n = found.map_or(0, |grid| grid.entries as usize);
    let m = found.map_or(0, |grid| grid.rows as usize);
    common::zero_rest(cell, n);
    common::zero_rest(first, n);
    common::zero_rest(span, n);
    common::zero_rest(row, m);
    common::zero_rest(row_end, m);
    found
}

// The call `grid`: the grid of the table in a line of a sheet. It asks its arguments first; then what is found in the sheet stands in the lent buffers, and
// in the end it clears what is no figure. A refused call clears all.
// Each buffer is a parameter, as the C interface lends it, down to the function that writes it; `GridCapacity` goes on with them (docs/DESIGN-PASS.md).
// `as` where a count or a place becomes a `usize`, for which there is no `From`.
// `(L ≤ max_lines) × (E ≤ max_entries)` is of const parameters, and so no type's.
#![tactic(auto)]

mod arrays; // the arrays to work in, by the size of the sheet
pub mod made; // the records of a grid as the call answers them

ghost use Rattle.std.specs.Prelude.{◌≡◌, ◌∷◌, Some};
ghost use Rattle.sheet_load.specs.Opening.{open_checks};
ghost use Rattle.sheet_figures.specs.inner.Early.{early};
ghost use Rattle.call_grid.specs.Grid.{GridAnswer};
ghost use Rattle.call_grid.specs.inner.Found.{GridCapacity, GridFound};

use answers::Grid;
use common::Refusal;

// What is found in the sheet, unless the arguments are refused. A function and no closure: of what a closure given to `and_then` leaves in the lent
// buffers nothing is known after it.
fn find_grid(
    sheet: &[u8],
    line: u32,
    asked: Result<(), Refusal>,
    cell: &mut [u32],
    first: &mut [u32],
    span: &mut [u32],
    row: &mut [u32],
    row_end: &mut [u32],
) -> Result<Grid, Refusal>
    requires { asked ≡ Ok tt → GridCapacity cell.old first.old span.old row.old row_end.old }
    ensures { GridFound (early asked ∷ open_checks (Some line) sheet.now) sheet.now line result
        cell.new first.new span.new row.new row_end.new }
{
    asked?;
    arrays::grid_within(sheet, line, cell, first, span, row, row_end)
}

// The grid of the table in a line: the line, the first column and the span of each entry, and the line and the end of each row.
pub fn grid(
    sheet: &[u8],
    line: u32,
    cell: &mut [u32],
    first: &mut [u32],
    span: &mut [u32],
    row: &mut [u32],
    row_end: &mut [u32],
) -> Result<Grid, Refusal>
    ensures { GridAnswer sheet.now line
        cell.old first.old span.old row.old row_end.old result
        cell.new first.new span.new row.new row_end.new }
{
    let asked = arguments::of_grid(
        cell.len(),
        first.len(),
        span.len(),
        row.len(),
        row_end.len(),
    );
    let found = find_grid(sheet, line, asked, cell, first, span, row, row_end);
    let n = found.map_or(0, |grid| grid.entries as usize);
    let m = found.map_or(0, |grid| grid.rows as usize);
    common::zero_rest(cell, n);
    common::zero_rest(first, n);
    common::zero_rest(span, n);
    common::zero_rest(row, m);
    common::zero_rest(row_end, m);
    found
}

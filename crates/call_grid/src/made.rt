// The records of a grid as the call answers them: how many there are, and each figure of them in its buffer.
ghost use Rattle.std.specs.Prelude.{◌≡◌, ◌≤◌, length};
ghost use Rattle.common.specs.Limits.{max_entries, max_lines, max_position};
ghost use Rattle.call_grid.specs.inner.Made.{answer_of, WriteGridPre, WriteGridPost};

use answers::Grid;
use grid_build::Records;

// How many there are. No `From`: it could not ask that the numbers are small.
pub fn answer_of(grid: Records<'_>) -> Grid
    requires { (length grid.entries.now ≤ max_entries) × (length grid.rows.now ≤ max_lines) × (grid.columns ≤ max_position) }
    ensures { result ≡ answer_of grid.entry.entries.now grid.entry.rows.now grid.entry.columns }
{
    Grid {
        rows: grid.rows.len() as u32,
        entries: grid.entries.len() as u32,
        columns: grid.columns as u32,
    }
}

// Each figure of the entries and the rows, in the front of its buffer.
pub fn write_grid(
    grid: Records<'_>,
    cell: &mut [u32],
    first: &mut [u32],
    span: &mut [u32],
    row: &mut [u32],
    row_end: &mut [u32],
)
    requires { WriteGridPre grid.entries.now grid.rows.now cell.old first.old span.old row.old row_end.old }
    ensures { WriteGridPost grid.entry.entries.now grid.entry.rows.now
        cell.new first.new span.new row.new row_end.new }
{
    common::write_front(grid.entries, |e| e.cell, cell);
    common::write_front(grid.entries, |e| e.first, first);
    common::write_front(grid.entries, |e| e.span, span);
    common::write_front(grid.rows, |r| r.line, row);
    common::write_front(grid.rows, |r| r.end, row_end);
}

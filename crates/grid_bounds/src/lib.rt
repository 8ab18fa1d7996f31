// Whether neither refusal 5 nor refusal 6 can apply to the tables of a sheet, by a bound: one pass over lines, no grid and nothing lent.
// The lines and the place of a table are two parameters, as `table_rows` has the two.
// `as` where a limit, or what is at most one, becomes a number of 32 bits: a `TryFrom` would never fail.
#![tactic(auto)]

pub mod whole; // whole.rt: all tables of a sheet at once

ghost use Rattle.std.specs.Prelude.{◌≡◌, true, ◌≤◌, ◌<◌, length};
ghost use Rattle.common.specs.Limits.{max_lines, max_position};
ghost use Rattle.resolved_rows.specs.Listed.{table_rows};
ghost use Rattle.grid.specs.Facts.{Sound};
ghost use Rattle.grid_bounds.specs.inner.Bound.{Room, HungByPost};

use common::{MAX_ENTRIES, MAX_POSITION};
use records::NodeRecord;

// The entries that a table may have.
pub const MOST_ENTRIES: u32 = MAX_ENTRIES as u32;

// Whether a cell fits into its row, which ends at `end` before it, and into its table, which has so many entries before it and may have `most`. A cols 0 or
// a rows 0 does not.
pub fn within_bounds(cols: u32, rows: u32, end: u32, entries: u32, most: u32) -> bool
    requires { (end ≤ max_position) × (entries ≤ most) }
    ensures { result ≡ true → Room cols rows end entries most }
{
    cols != 0 && rows != 0 && cols <= MAX_POSITION as u32 - end && rows <= most - entries
}

// How wide a cell hangs into the rows after its own.
fn hung_by(cols: u32, rows: u32) -> u32
    ensures { HungByPost cols rows result }
{
    if rows == 1 { 0 } else { cols }
}

// Whether the table at the place `at` is within the bound: what hangs is taken to hang to its body's end, and each cell to take all rows that it asks for.
// `hung` hang into the row after the open one, which ends at `end`, and there are so many entries.
pub fn table_fits(lines: &[NodeRecord], at: usize) -> bool
    requires { (at < length lines.now) × (length lines.now ≤ max_lines) }
    ensures { result ≡ true → Sound (table_rows lines.now at) }
{
    let table = lines[at];
    let d = table.depth;
    let mut hung: u32 = 0;
    let mut end: u32 = 0;
    let mut entries: u32 = 0;
    // Ended by `break`, since a turn asks by how much its line is deeper: `take_while` would ask that twice.
    for line in &lines[at + 1..] {
        if line.depth <= d {
            break;
        }
        let e = line.depth - d;
        if e == 3 {
            let cols = u32::from(line.cols);
            let rows = u32::from(line.rows);
            if !within_bounds(cols, rows, end, entries, MOST_ENTRIES) {
                return false;
            }
            hung += hung_by(cols, rows);
            end += cols;
            entries += rows;
        } else if e == 2 {
            end = hung;
        } else if e == 1 {
            hung = 0;
            end = 0;
        }
    }
    true
}

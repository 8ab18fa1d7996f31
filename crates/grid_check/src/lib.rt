// Checks every table of a sheet by counting: no grid is made, and one slice is lent.
// The lines and the place of a table are two parameters, as `table_rows` has the two.
// `Lined`, and that there are as many places as lines, are asked in several contracts: a type that holds them would be made and opened again at each
// call (docs/DESIGN-PASS.md).
// `as` where a line's place is known to fit 32 bits: a `TryFrom` would never fail.
#![tactic(auto)]

ghost use Rattle.std.specs.Prelude.{◌≡◌, true, ◌≤◌, ◌<◌, length};
ghost use Rattle.common.specs.Limits.{max_entries};
ghost use Rattle.resolved_rows.specs.Listed.{table_rows};
ghost use Rattle.grid.specs.Judging.{Lined};
ghost use Rattle.grid_bounds.specs.inner.Sheets.{Nests, SheetBound};
ghost use Rattle.grid_check.specs.inner.Checking.{refusal_of, TablesChecked};

use common::{Reason, Refusal};
use kinds::Kind;
use records::NodeRecord;

// Which refusal applies to the table at the place `at`: by the bound, which decides nearly every table, and where it does not, by counting.
pub fn check_table(lines: &[NodeRecord], at: usize, ends: &mut [u32]) -> Result<(), Reason>
    requires at_in_bounds { at < length lines.now }
    requires lined { Lined lines.now }
    requires lines_in_bounds { length lines.now ≤ length ends.old }
    ensures { result ≡ refusal_of (table_rows lines.now at) }
{
    if grid_bounds::table_fits(lines, at) {
        return Ok(());
    }
    grid_counts::count_table(lines, at, ends)
}

// Checks each table of a sheet by itself, in the order of lines.
fn check_each(lines: &[NodeRecord], ends: &mut [u32]) -> Result<(), Refusal>
    requires lined { Lined lines.now }
    requires lines_in_bounds { length lines.now ≤ length ends.old }
    ensures { TablesChecked lines.now result }
{
    for (t, here) in lines.iter().enumerate() {
        if here.kind == Kind::Table {
            check_table(lines, t, ends).map_err(|reason| reason.at((t + 1) as u32))?;
        }
    }
    Ok(())
}

// Checks each table of a sheet, in the order of lines: the first refusal that applies, on the table's line. The bound on all cells of the sheet together
// decides nearly every sheet in one pass.
pub fn check_tables(lines: &[NodeRecord], ends: &mut [u32]) -> Result<(), Refusal>
    requires lined { Lined lines.now }
    requires nests { Nests lines.now }
    requires lines_in_bounds { length lines.now ≤ length ends.old }
    ensures { TablesChecked lines.now result }
{
    if grid_bounds::whole::sheet_fits(lines, grid_bounds::MOST_ENTRIES) {
        return Ok(());
    }
    check_each(lines, ends)
}

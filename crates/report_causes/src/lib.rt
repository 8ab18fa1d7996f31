// What `explain` tells of one table: a line for each of its columns, with its cause, and which of its entries are missing. Causes and missing entries are
// those of the call `missing`. It is a crate beside `report` so that neither takes long to prove.
// raw and width are two parameters, as crate causes takes them, and missing and cause slices of numbers, as it fills them.
#![tactic(auto)]

mod column_lines; // column_lines.rt: a line for each column, with its cause
mod losses; // losses.rt: which entries are missing, and how many

ghost use Rattle.std.specs.Prelude.{◌≤◌, length};
ghost use Rattle.causes.specs.inner.Tables.{ExplainPre};

use answers::Way;
use column_lines::Columns;
use grid_build::Records;
use losses::Missed;
use table_text::lines::Listing;
use text::Estimate;

// Puts what is told of a table, whose grid and final widths are given. The last two are scratch for the missing entries and the causes.
pub fn put_table(
    out: &mut Listing<'_>,
    way: Way,
    raw: u32,
    width: u32,
    figures: &[Estimate],
    grid: Records<'_>,
    column: &[u32],
    missing: &mut [u32],
    cause: &mut [u32],
)
    requires explainable { ExplainPre grid.entries.now figures.now grid.columns missing.old }
    requires cause_in { grid.columns ≤ length cause.old }
{
    let cause = &mut cause[..grid.columns];
    let count = causes::tables::explain(grid.entries, figures, raw, width, missing, cause);
    let columns = Columns {
        way,
        width,
        entries: grid.entries,
        figures,
        column,
        cause,
    };
    columns.put(out);
    let missed = Missed {
        grid,
        figures,
        missing: &missing[..count],
    };
    missed.put(out);
}

// One table of a measured sheet laid out: its grid made, and laid out in the front of lent slices.
// raw and width are two parameters, as the definitions have them, and raw a number. column, x and wide are a slice each, as C lends them.
// entries and rows are two slices where they are written: of a struct of both each function would have to promise that they stay as long.
// `GridCapacity` is asked in four crates: it goes on with the slices that are written to (docs/DESIGN-PASS.md).
#![tactic(auto)]

ghost use Rattle.std.specs.Prelude.{length};
ghost use Rattle.resolved_rows.specs.Listed.{table_rows};
ghost use Rattle.table_layout.specs.inner.Laying.{box_rows_by, LaidTable};
ghost use Rattle.table_layout.specs.Arranging.{TableKnown};
ghost use Rattle.table_layout.specs.inner.Arranging.{ArrangePost};
ghost use Rattle.table_layout.specs.inner.Capacity.{LayPre, GridCapacity, ArrangePre};

use grid_build::{Counts, Records};
use records::{Entry, NodeRecord, RowEnd};
use text::Estimate;
use widths::Laid;

// A table of an accepted sheet: the sheet's lines, their estimates, of which those of the table's cells are measured, and the place of its line.
#[derive(Clone, Copy)]
pub struct MeasuredTable<'a> {
    pub lines: &'a [NodeRecord],
    pub figures: &'a [Estimate],
    pub at: usize,
    pub ghost known: { TableKnown lines.now figures.now at },
}

// A table laid out: how many rows, entries and columns it has, its way and the width that it takes.
#[derive(Clone, Copy)]
pub struct Arrangement {
    pub counts: Counts,
    pub laid: Laid,
}

// Ports `render_table_tree`: the columns' widths, and then the place of each entry.
pub fn lay(
    grid: Records<'_>,
    figures: &[Estimate],
    raw: u32,
    width: u32,
    column: &mut [u32],
    x: &mut [u32],
    wide: &mut [u32],
) -> Laid
    requires { LayPre grid.entries.now grid.rows.now figures.now width column.old x.old wide.old }
    ensures { LaidTable (length column.old) (box_rows_by grid.entry.rows.now grid.entry.entries.now figures.now) raw width column.new x.new wide.new result }
{
    let laid = column_sizes::lay_columns(grid.entries, figures, raw, width, column);
    placement::place(laid.way, grid.entries, grid.rows, column, width, x, wide);
    laid
}

// Lays out a table in the front of the slices: its entries and rows as records, the columns' final widths, x and width of each entry.
pub fn arrange(
    t: MeasuredTable<'_>,
    raw: u32,
    width: u32,
    entries: &mut [Entry],
    rows: &mut [RowEnd],
    column: &mut [u32],
    x: &mut [u32],
    wide: &mut [u32],
) -> Arrangement
    requires grid_capacity { GridCapacity t.lines.now t.at entries.old rows.old }
    requires layout_capacity { ArrangePre (table_rows t.lines.now t.at) width column.old x.old wide.old }
    ensures { ArrangePost t.entry.lines.now t.entry.at t.entry.figures.now raw width entries.new rows.new column.new x.new wide.new result.counts result.laid }
{
    let counts = grid_plain::make(t.lines, t.at, entries, rows);
    let laid = lay(
        counts.records(entries, rows),
        t.figures,
        raw,
        width,
        &mut column[..counts.columns],
        &mut x[..counts.entries],
        &mut wide[..counts.entries],
    );
    Arrangement { counts, laid }
}

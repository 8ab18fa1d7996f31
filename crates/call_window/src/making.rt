// The report on one table of a measured sheet: its grid is made first.
// entries and rows are two slices where they are written; read, they are `Records`.
ghost use Rattle.table_layout.specs.inner.Capacity.{GridCapacity};
ghost use Rattle.call_window.specs.inner.Found.{ReportCapacity, WindowMade};

use records::{Entry, RowEnd};
use table_layout::MeasuredTable;

// That of a table, in the front of the lent buffers.
pub fn report(
    t: MeasuredTable<'_>,
    raw: u32,
    widths: &[u32],
    entries: &mut [Entry],
    rows: &mut [RowEnd],
    way: &mut [u32],
    wide: &mut [u32],
    missing: &mut [u32],
)
    requires grid_capacity { GridCapacity t.lines.now t.at entries.old rows.old }
    requires report_capacity { ReportCapacity widths.now way.old wide.old missing.old }
    ensures { WindowMade t.entry.lines.now t.entry.at t.entry.figures.now raw widths.now way.new wide.new missing.new }
{
    let counts = grid_plain::make(t.lines, t.at, entries, rows);
    let grid = counts.records(entries, rows);
    let m = widths.len();
    window::write_report(
        grid,
        t.figures,
        raw,
        widths,
        &mut way[..m],
        &mut wide[..m],
        &mut missing[..m],
    );
}

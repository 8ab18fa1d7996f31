// The missing entries and the causes of one table of a measured sheet: its grid is made first.
// entries and rows are two slices where they are written; read, they are `Records`.
ghost use Rattle.std.specs.Prelude.{◌≤◌, length};
ghost use Rattle.table_layout.specs.inner.Capacity.{GridCapacity};
ghost use Rattle.call_missing.specs.inner.Found.{ExplainCapacity, MissingMade};

use answers::Causes;
use arguments::Settings;
use records::{Entry, RowEnd};
use table_layout::MeasuredTable;

// Those of a table, in the front of the lent buffers.
pub fn explain(
    t: MeasuredTable<'_>,
    settings: Settings,
    entries: &mut [Entry],
    rows: &mut [RowEnd],
    entry: &mut [u32],
    cause: &mut [u32],
) -> Causes
    requires grid_capacity { GridCapacity t.lines.now t.at entries.old rows.old }
    requires explain_capacity { ExplainCapacity entry.old cause.old }
    ensures { MissingMade t.entry.lines.now t.entry.at t.entry.figures.now settings.raw settings.width result entry.new cause.new }
{
    let counts = grid_plain::make(t.lines, t.at, entries, rows);
    let grid = counts.records(entries, rows);
    let count = causes::tables::explain(
        grid.entries,
        t.figures,
        settings.raw,
        settings.width,
        entry,
        &mut cause[..grid.columns],
    );
    Causes {
        count: count as u32,
        columns: grid.columns as u32,
    }
}

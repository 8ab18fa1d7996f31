// The row of one table of a measured sheet: the table is laid out first.
// entries and rows are two slices, which are lent on to be written.
ghost use Rattle.std.specs.Prelude.{◌≤◌, length};
ghost use Rattle.common.specs.Limits.{max_lines};
ghost use Rattle.table_layout.specs.inner.Capacity.{GridCapacity};
ghost use Rattle.row_lookup.specs.inner.Ranges.{PlacesCapacity, FindRowPost};

use crate::Span;
use arguments::Settings;
use common::Refusal;
use records::{Entry, RowEnd};
use table_layout::MeasuredTable;

// Where it stands; the places of all entries of the table are left in the slices.
pub fn find_row(
    t: MeasuredTable<'_>,
    settings: Settings,
    row: u32,
    entries: &mut [Entry],
    rows: &mut [RowEnd],
    column: &mut [u32],
    x: &mut [u32],
    wide: &mut [u32],
) -> Result<Span, Refusal>
    requires grid_capacity { GridCapacity t.lines.now t.at entries.old rows.old }
    requires max_lines_in_bounds { max_lines ≤ length column.old }
    requires places_capacity { PlacesCapacity x.old wide.old }
    ensures { FindRowPost t.entry.lines.now t.entry.at t.entry.figures.now settings.raw settings.width row result x.new wide.new }
{
    let a = table_layout::arrange(
        t,
        settings.raw,
        settings.width,
        entries,
        rows,
        column,
        x,
        wide,
    );
    let counts = a.counts;
    let laid = a.laid;
    crate::starts::row_in(laid.way, &rows[..counts.rows], row)
}

// The layout of one table of an accepted sheet, whose cells are measured.
// raw and width are two parameters, as the definitions have them: in nested the width is not that of the settings.
// entries and rows are two slices, which are lent on as scratch.
ghost use Rattle.std.specs.Prelude.{◌≡◌, ◌≤◌};
ghost use Rattle.common.specs.Limits.{max_entries, max_position, max_size};
ghost use Rattle.table_layout.specs.inner.Asked.{OutCapacity};
ghost use Rattle.table_layout.specs.inner.Capacity.{GridCapacity};
ghost use Rattle.call_layout.specs.inner.Made.{answer_of, LayoutOfPost};

use answers::Layout;
use records::{Entry, RowEnd};
use table_layout::{Arrangement, MeasuredTable};

// An arrangement as the call answers it. No `From`: it could not ask that the numbers are small.
pub fn answer_of(a: Arrangement) -> Layout
    requires { (a.counts.entries ≤ max_entries) × (a.counts.columns ≤ max_position) }
    ensures { result ≡ answer_of a }
{
    let Arrangement { counts, laid } = a;
    Layout {
        way: laid.way,
        entries: counts.entries as u32,
        columns: counts.columns as u32,
        width: laid.width,
    }
}

// The layout at a width, written to the front of the lent buffers; `entries` and `rows` are scratch.
pub fn layout_of(
    t: MeasuredTable<'_>,
    raw: u32,
    width: u32,
    entries: &mut [Entry],
    rows: &mut [RowEnd],
    column: &mut [u32],
    x: &mut [u32],
    wide: &mut [u32],
) -> Layout
    requires grid_capacity { GridCapacity t.lines.now t.at entries.old rows.old }
    requires width_le_max_size { width ≤ max_size }
    requires out_capacity { OutCapacity column.old x.old wide.old }
    ensures { LayoutOfPost t.entry.lines.now t.entry.at t.entry.figures.now raw width result
        column.new x.new wide.new }
{
    let a = table_layout::arrange(t, raw, width, entries, rows, column, x, wide);
    answer_of(a)
}

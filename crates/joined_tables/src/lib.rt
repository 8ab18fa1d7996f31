// Two tables of one sheet side by side: their grids made and joined, and the joined grid laid out in the front of lent slices.
// raw and width are two parameters, as the definitions have them, and raw a number. column, x and wide are a slice each, as C lends them.
// entries and rows are two slices where they are written: of a struct of both each function would have to promise that they stay as long.
#![tactic(auto)]

ghost use Rattle.table_layout.specs.Arranging.{AllMeasured};
ghost use Rattle.joined_tables.specs.Side.{Tables};
ghost use Rattle.joined_tables.specs.inner.Joining.{RecordCapacity, MakePost, LayOutCapacity, LayOutPost};

use common::{MAX_ENTRIES, MAX_LINES, Reason};
use grid_build::Counts;
use records::{Entry, NodeRecord, RowEnd};
use table_layout::Arrangement;
use text::Estimate;

// Two tables of an accepted sheet: the sheet's lines, their estimates, and the places of the tables' lines.
#[derive(Clone, Copy)]
pub struct MeasuredTables<'a> {
    pub lines: &'a [NodeRecord],
    pub figures: &'a [Estimate],
    pub left: usize,
    pub right: usize,
    pub ghost known: { Tables lines.now left right },
}

// The joined grid of the tables at the places l and r: the counts, with its records in the first places, or the first of the refusals 5 and 6 that
// applies. Each table's grid is made in arrays of its own.
pub fn make(
    lines: &[NodeRecord],
    l: usize,
    r: usize,
    entries: &mut [Entry],
    rows: &mut [RowEnd],
) -> Result<Counts, Reason>
    requires tables { Tables lines.now l r }
    requires record_capacity { RecordCapacity entries.old rows.old }
    ensures { MakePost lines.now l r result entries.new rows.new }
{
    let mut left = [records::NO_ENTRY; MAX_ENTRIES];
    let mut left_rows = [records::NO_ROW; MAX_LINES];
    let mut right = [records::NO_ENTRY; MAX_ENTRIES];
    let mut right_rows = [records::NO_ROW; MAX_LINES];
    let a = grid_plain::make(lines, l, &mut left, &mut left_rows);
    let b = grid_plain::make(lines, r, &mut right, &mut right_rows);
    grid_join::join(
        a.records(&left, &left_rows),
        b.records(&right, &right_rows),
        entries,
        rows,
    )
}

// Two tables of a measured sheet laid out side by side: the columns' final widths, x and width of each entry. The records of the joined grid are made in
// lent slices.
pub fn lay_out(
    t: MeasuredTables<'_>,
    raw: u32,
    width: u32,
    entries: &mut [Entry],
    rows: &mut [RowEnd],
    column: &mut [u32],
    x: &mut [u32],
    wide: &mut [u32],
) -> Result<Arrangement, Reason>
    requires measured { AllMeasured t.lines.now t.figures.now }
    requires record_capacity { RecordCapacity entries.old rows.old }
    requires layout_capacity { LayOutCapacity width column.old x.old wide.old }
    ensures { LayOutPost t.entry.lines.now t.entry.left t.entry.right t.entry.figures.now raw width result column.new x.new wide.new }
{
    let counts = make(t.lines, t.left, t.right, entries, rows)?;
    let laid = table_layout::lay(
        counts.records(entries, rows),
        t.figures,
        raw,
        width,
        &mut column[..counts.columns],
        &mut x[..counts.entries],
        &mut wide[..counts.entries],
    );
    Ok(Arrangement { counts, laid })
}

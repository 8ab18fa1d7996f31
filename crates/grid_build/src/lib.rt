// The grid of one table, made where it is used, as records of its entries and rows. Room to work in is its own, of three sizes, by the lines of
// the table alone: it is cleared for each table, and for a small table a short one does.
// entries and rows are two slices where they are written: of a struct of both each function would have to promise that they stay as long.
// The place of the table stands beside the lines: a line's place says its number, which goes into the records.
// `TableReady` is asked in four contracts: it is of the place and the slices that are written to, and goes on with them (docs/DESIGN-PASS.md).
#![tactic(auto)]

ghost use Rattle.std.specs.Prelude.{◌≡◌, ◌-◌, ◌*◌, ◌≤◌, ◌<◌, length};
ghost use Rattle.common.specs.Limits.{max_lines};
ghost use Rattle.resolved_rows.specs.Listed.{table_rows};
ghost use Rattle.grid_build.specs.inner.Records.{TableReady, TableMade};
ghost use Rattle.grid_build.specs.inner.Cut.{RecordsPost};
ghost use Rattle.grid_build.specs.inner.Making.{EndOfPost, MakeInPre};

use common::MAX_LINES;
use grid_row::Overhang;
use records::{Entry, NodeRecord, RowEnd};

// Lines of a table for which short arrays do. The sizes are for speed alone.
const FEW_LINES: usize = 16;

const SOME_LINES: usize = 512;

// How many rows, entries and columns a grid has.
#[derive(Clone, Copy)]
pub struct Counts {
    pub rows: usize,
    pub entries: usize,
    pub columns: usize,
}

// The records of a grid: of its entries and of its rows, and how many columns it has.
#[derive(Clone, Copy)]
pub struct Records<'a> {
    pub entries: &'a [Entry],
    pub rows: &'a [RowEnd],
    pub columns: usize,
}

impl Counts {
    // The records of a grid that was made in two slices: so many of their first.
    pub fn records<'a>(self, entries: &'a [Entry], rows: &'a [RowEnd]) -> Records<'a>
        requires { (self.entries ≤ length entries.now) × (self.rows ≤ length rows.now) }
        ensures { RecordsPost self entries.now rows.now result.entries.now result.rows.now result.columns }
    {
        Records {
            entries: &entries[..self.entries],
            rows: &rows[..self.rows],
            columns: self.columns,
        }
    }
}

// Where the lines of the table at the place `at` end: at the first that is no deeper than the table.
fn end_of(lines: &[NodeRecord], at: usize) -> usize
    requires at_in_bounds { at < length lines.now }
    requires lines_len_bound { length lines.now ≤ max_lines }
    ensures { EndOfPost lines.now at result }
{
    let d = lines[at].depth;
    lines[at + 1..]
        .iter()
        .position(|line| line.depth <= d)
        .map_or(lines.len(), |k| at + 1 + k)
}

// The grid of a table in scratch that does for it: for its cells, for what hangs into a row, and for what hangs into the next.
fn make_in(
    lines: &[NodeRecord],
    at: usize,
    cells: &mut [u32],
    overhang: &mut [u32],
    next: &mut [Overhang],
    entries: &mut [Entry],
    rows: &mut [RowEnd],
) -> Counts
    requires table_ready { TableReady lines.now at entries.old rows.old }
    requires roomy { MakeInPre (length lines.now - at) cells.old overhang.old next.old }
    ensures { TableMade (table_rows lines.now at) result entries.new rows.new }
{
    let placed = grid::place_table(lines, at, cells, overhang, next, entries, rows);
    let columns = grid::placed_grid(placed, rows, entries);
    Counts {
        rows: placed.rows,
        entries: placed.entries,
        columns,
    }
}

// The grid of a table in arrays for L lines: of three numbers and of a record for each. It is never taken into its caller's frame: so a small table
// does not pay for the arrays of a large one. Three arrays of L numbers are lent as one slice, since the language has no computed const argument; L
// arrays of three would be filled one by one, which takes up to 55 % more instructions.
#[inline(never)]
fn make_sized<const L: usize>(
    lines: &[NodeRecord],
    at: usize,
    entries: &mut [Entry],
    rows: &mut [RowEnd],
) -> Counts
    requires table_ready { TableReady lines.now at entries.old rows.old }
    requires roomy { length lines.now - at ≤ L }
    requires small { L ≤ max_lines }
    ensures { TableMade (table_rows lines.now at) result entries.new rows.new }
{
    let mut cells = [[0u32; L]; 3];
    let mut overhang = [[0u32; L]; 3];
    let mut next = [grid_row::NO_OVERHANG; L];
    make_in(
        lines,
        at,
        cells.as_flattened_mut(),
        overhang.as_flattened_mut(),
        &mut next,
        entries,
        rows,
    )
}

// The grid of a table with which the lines end: in the shortest arrays that do for its lines.
fn make_within(
    lines: &[NodeRecord],
    at: usize,
    entries: &mut [Entry],
    rows: &mut [RowEnd],
) -> Counts
    requires { TableReady lines.now at entries.old rows.old }
    ensures { TableMade (table_rows lines.now at) result entries.new rows.new }
{
    let n = lines.len() - at;
    if n <= FEW_LINES {
        make_sized::<FEW_LINES>(lines, at, entries, rows)
    } else if n <= SOME_LINES {
        make_sized::<SOME_LINES>(lines, at, entries, rows)
    } else {
        make_sized::<MAX_LINES>(lines, at, entries, rows)
    }
}

// The grid of the table at the place `at` of an opened sheet, to which no refusal applies: a record for each entry and for each row, and how many
// there are.
pub fn make_sound(
    lines: &[NodeRecord],
    at: usize,
    entries: &mut [Entry],
    rows: &mut [RowEnd],
) -> Counts
    requires { TableReady lines.now at entries.old rows.old }
    ensures { TableMade (table_rows lines.now at) result entries.new rows.new }
{
    let end = end_of(lines, at);
    make_within(&lines[..end], at, entries, rows)
}

// The grid of a table, made where it is used, as records of its entries and rows. A plain table, in which every cell takes one column and one row, is
// made in one pass over its lines and without edges: the column of an entry is its place in its row.
// entries and rows are two slices: of a struct of both each function would have to promise that they stay as long as they were. They are filled from
// the front, beside counts: a `Vec` needs a heap.
// The place of a table or a row stands beside the lines: a line's place says its number, which goes into the records.
// `as` where a place or a count is known to fit 32 bits: a `TryFrom` would never fail.
#![tactic(auto)]

ghost use Rattle.std.specs.Prelude.{◌≡◌, ◌&&◌, eqb};
ghost use Rattle.resolved_rows.specs.Listed.{table_rows};
ghost use Rattle.grid_build.specs.inner.Records.{TableReady, TableMade};
ghost use Rattle.grid_plain.specs.inner.Walking.{TryRowPre, TryRowPost, TryPlainPost};

use grid_build::Counts;
use records::{Entry, NodeRecord, RowEnd};

// Where a row's lines end, and how many cells it has.
#[derive(Clone, Copy)]
struct RowCells {
    next: usize,
    cells: usize,
}

// Whether a cell takes one column and one row.
fn is_plain(cols: u16, rows: u16) -> bool
    ensures { result ≡ (eqb cols 1 && eqb rows 1) }
{
    cols == 1 && rows == 1
}

// The entries of a row of a table of depth d, from entry n on, by the row's lines, which begin at the place `from`: its cells are three deeper than the
// table, and what is still deeper stands in them. None at the first cell that is not plain. Of the entries before n it is promised that they stay.
fn try_row(
    lines: &[NodeRecord],
    from: usize,
    d: u32,
    n: usize,
    entries: &mut [Entry],
) -> Option<RowCells>
    requires { TryRowPre lines.now d from n entries.old }
    ensures { TryRowPost lines.now d from n result entries.old entries.new }
{
    let mut k = 0;
    // each with its place: it says the line's number, and the answer says where the next lines begin
    for (i, line) in (from..).zip(&lines[from..]) {
        let e = u32::from(line.depth);
        if e <= d + 2 {
            return Some(RowCells { next: i, cells: k });
        }
        if e == d + 3 {
            if !is_plain(line.cols, line.rows) {
                return None;
            }
            let entry = Entry {
                cell: (i + 1) as u32,
                first: k as u32,
                span: 1,
            };
            entries[n + k] = entry;
            k += 1;
        }
    }
    Some(RowCells {
        next: lines.len(),
        cells: k,
    })
}

// The grid of the table at the place `at`, if it is plain: of each row its entries and its record. A line that is no row between rows is a body.
fn try_plain(
    lines: &[NodeRecord],
    at: usize,
    entries: &mut [Entry],
    rows: &mut [RowEnd],
) -> Option<Counts>
    requires { TableReady lines.now at entries.old rows.old }
    ensures { TryPlainPost (table_rows lines.now at) result entries.new rows.new }
{
    let d = u32::from(lines[at].depth);
    let mut n = 0;
    let mut r = 0;
    let mut columns: usize = 0;
    let mut i = at + 1;
    // A while: a turn passes all lines of a row.
    while resolved_rows::below(lines, i, d) {
        let line = lines[i];
        i += 1;
        if u32::from(line.depth) == d + 2 {
            let end = try_row(lines, i, d, n, entries)?;
            n += end.cells;
            let row = RowEnd {
                line: i as u32,
                end: n as u32,
            };
            rows[r] = row;
            r += 1;
            columns = columns.max(end.cells);
            i = end.next;
        }
    }
    Some(Counts {
        rows: r,
        entries: n,
        columns,
    })
}

// The grid of the table at the place `at` of an opened sheet, to which no refusal applies: a record for each entry and for each row, and how many
// there are. A table that is not plain is made by its edges.
pub fn make(lines: &[NodeRecord], at: usize, entries: &mut [Entry], rows: &mut [RowEnd]) -> Counts
    requires { TableReady lines.now at entries.old rows.old }
    ensures { TableMade (table_rows lines.now at) result entries.new rows.new }
{
    match try_plain(lines, at, entries, rows) {
        Some(counts) => counts,
        None => grid_build::make_sound(lines, at, entries, rows),
    }
}

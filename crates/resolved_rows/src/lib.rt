// The cells of a table as they are written, row by row and body by body, what a colspan of 0 becomes, and where a rowspan ends.
// Cells and rows are filled from the front of their slices, beside a count: a `Vec` needs a heap.
// The place of a table stands beside the lines: a line's place says its number, which goes into the records.
// `as` where a place or a count becomes a number of 32 bits, or the other way round: there is no `From`, and a `TryFrom` would never fail.
// `BodyHeld` and that few rows are left are asked in several contracts: a type that holds them would be made and opened again at each call.
#![tactic(auto)]

ghost use Rattle.std.specs.Prelude.{◌≡◌, cond, length, get_or, set, ltb, eqb, ◌+◌, ◌<◌, ◌/◌};
ghost use Rattle.common.specs.Limits.{max_lines};
ghost use Rattle.records.specs.NodeRecord.{no_node};
ghost use Rattle.resolved_rows.specs.Cells.{row_sum, taken};
ghost use Rattle.resolved_rows.specs.Listed.{table_rows};
ghost use Rattle.resolved_rows.specs.inner.Listed.{ListRowsPre, ListRowsPost};
ghost use Rattle.resolved_rows.specs.inner.Held.{no_cell, cells_of, lines_of, spans_of, rowspans_of};
ghost use Rattle.records.specs.inner.Figures.{row_lines_of, row_ends_of};
ghost use Rattle.resolved_rows.specs.inner.Spans.{bare, rows_at, Narrow, BodyHeld, LargestSum, RowsHeld, ResolveRowPost, BodyResolved};

use records::{NodeRecord, RowEnd};

// How many cells and rows a table has.
#[derive(Clone, Copy)]
pub struct Listed {
    pub cells: usize,
    pub rows: usize,
}

// A cell of a table: its line, the columns that it spans, and the rows that it takes. Cells stand as three numbers each in one slice: the rules of the
// project ask for number slices here by name.
#[derive(Clone, Copy)]
pub struct Cell {
    pub line: u32,
    pub span: u32,
    pub rows: u32,
}

pub fn cell_at(cells: &[u32], i: usize) -> Cell
    requires { i < length cells.now / 3 }
    ensures { result ≡ get_or (cells_of cells.now) i no_cell }
{
    let at = 3 * i;
    Cell {
        line: cells[at],
        span: cells[at + 1],
        rows: cells[at + 2],
    }
}

pub fn put_cell(cells: &mut [u32], i: usize, c: Cell)
    requires { i < length cells.old / 3 }
    ensures { cells_of cells.new ≡ set (cells_of cells.old) i c }
{
    let at = 3 * i;
    cells[at] = c.line;
    cells[at + 1] = c.span;
    cells[at + 2] = c.rows;
}

// A row's sum: every cell's cols, 0 as 1. It is the sum in `num_columns` of `tbody_to_render_tree`.
fn row_sum(cells: &[u32]) -> u32
    requires { Narrow (spans_of cells.now) }
    ensures { result ≡ row_sum (bare (spans_of cells.now)) }
{
    cells.chunks_exact(3).map(|cell| cell[1].max(1)).sum()
}

// A cell's cols, with `instead` in the place of 0.
pub fn filled(cols: u32, instead: u32) -> u32
    ensures { result ≡ cond (eqb cols 0) instead cols }
{
    if cols == 0 { instead } else { cols }
}

// How many rows a cell takes where `left` rows follow its own in the body: a rowspan never leaves its body, and rows 0 runs to the last row.
pub fn rows_within(rows: u32, left: u32) -> u32
    requires { left < max_lines }
    ensures { result ≡ taken left rows }
{
    if rows == 0 || left < rows {
        left + 1
    } else {
        rows
    }
}

// Resolves a row's cells: puts `instead` in the place of each 0 of their cols, and cuts their rows to the rows that are left.
fn resolve_row(cells: &mut [u32], instead: u32, left: u32)
    requires { left < max_lines }
    ensures { ResolveRowPost instead left
        (lines_of cells.old) (spans_of cells.old) (rowspans_of cells.old)
        (lines_of cells.new) (spans_of cells.new) (rowspans_of cells.new) }
{
    // by places: a cell is three numbers of the slice, a form that the rules of the project ask for
    for i in 0..cells.len() / 3 {
        let c = cell_at(cells, i);
        let resolved = Cell {
            line: c.line,
            span: filled(c.span, instead),
            rows: rows_within(c.rows, left),
        };
        put_cell(cells, i, resolved);
    }
}

// The largest sum of a body's rows: `max_columns` of `tbody_to_render_tree`. The first row's cells begin at `first`, and each row says where its
// cells end. That is found by a number among all cells, and so the cells are not cut to the body, here and below.
fn widest_row(cells: &[u32], rows: &[RowEnd], first: usize) -> u32
    requires { BodyHeld first (row_ends_of rows.now) (spans_of cells.now) }
    ensures { LargestSum (rows_at first (row_ends_of rows.now) (spans_of cells.now)) result }
{
    let mut most: u32 = 0;
    let mut from = first;
    for row in rows {
        let to = row.end as usize;
        most = most.max(row_sum(&cells[3 * from..3 * to]));
        from = to;
    }
    most
}

// Resolves each row of a body, whose largest sum is `most`. A row's sum is added up again, since there is no place to keep it.
fn resolve_rows(cells: &mut [u32], rows: &[RowEnd], first: usize, most: u32)
    requires body_held { BodyHeld first (row_ends_of rows.now) (spans_of cells.old) }
    requires rows_held { RowsHeld first (row_ends_of rows.now) (rowspans_of cells.old) }
    requires largest_sum { LargestSum (rows_at first (row_ends_of rows.now) (spans_of cells.old)) most }
    ensures { BodyResolved first (row_ends_of rows.now)
        (lines_of cells.old) (spans_of cells.old) (rowspans_of cells.old)
        (lines_of cells.new) (spans_of cells.new) (rowspans_of cells.new) }
{
    let count = rows.len();
    let mut from = first;
    for (j, row) in rows.iter().enumerate() {
        let to = row.end as usize;
        let sum = row_sum(&cells[3 * from..3 * to]);
        let left = (count - j - 1) as u32;
        resolve_row(&mut cells[3 * from..3 * to], most - sum + 1, left);
        from = to;
    }
}

// Resolves the cells of a body in place, as `tbody_to_render_tree` does, from its rows; its first cell is at `first`.
fn resolve_body(cells: &mut [u32], rows: &[RowEnd], first: usize)
    requires body_held { BodyHeld first (row_ends_of rows.now) (spans_of cells.old) }
    requires rows_held { RowsHeld first (row_ends_of rows.now) (rowspans_of cells.old) }
    ensures { BodyResolved first (row_ends_of rows.now)
        (lines_of cells.old) (spans_of cells.old) (rowspans_of cells.old)
        (lines_of cells.new) (spans_of cells.new) (rowspans_of cells.new) }
{
    let most = widest_row(cells, rows, first);
    resolve_rows(cells, rows, first, most);
}

// Whether there is a line at the place i that is deeper than d.
pub fn below(lines: &[NodeRecord], i: usize, d: u32) -> bool
    ensures { result ≡ ltb d (get_or lines.now i no_node).depth }
{
    lines.get(i).is_some_and(|line| d < u32::from(line.depth))
}

// The row of the line at the place i, up to which there are n cells.
fn row_of(i: usize, n: usize) -> RowEnd
    requires { (i < max_lines) × (n < max_lines) }
    ensures { (result.line ≡ i + 1) × (result.end ≡ n) }
{
    RowEnd {
        line: (i + 1) as u32,
        end: n as u32,
    }
}

// The cell of the line at the place i.
fn cell_of(i: usize, cols: u32, rows: u32) -> Cell
    requires { i < max_lines }
    ensures { (result.line ≡ i + 1) × (result.span ≡ cols) × (result.rows ≡ rows) }
{
    Cell {
        line: (i + 1) as u32,
        span: cols,
        rows,
    }
}

// Lists the rows and the cells of the table at the place `at`, resolved: what `tr_to_render_tree` and `tbody_to_render_tree` gather. A row's
// record says how many cells there are up to and including it. A body is resolved where the next one begins, since only then its largest sum and
// its last row are known, and the last one where the table ends.
pub fn list_rows(lines: &[NodeRecord], at: usize, cells: &mut [u32], rows: &mut [RowEnd]) -> Listed
    requires { ListRowsPre lines.now at (lines_of cells.old) (spans_of cells.old) (rowspans_of cells.old) (row_lines_of rows.old) (row_ends_of rows.old) }
    ensures { ListRowsPost (table_rows lines.now at)
        (lines_of cells.old) (spans_of cells.old) (rowspans_of cells.old) (row_lines_of rows.old) (row_ends_of rows.old)
        (lines_of cells.new) (spans_of cells.new) (rowspans_of cells.new) (row_lines_of rows.new) (row_ends_of rows.new) result.cells result.rows }
{
    let d = u32::from(lines[at].depth);
    // the cells and the rows listed, and how many of them stand before the last body
    let mut n = 0;
    let mut r = 0;
    let mut first_cell = 0;
    let mut first_row = 0;
    // ended by `break`, since a turn asks by how much its line is deeper
    for (i, line) in (at + 1..).zip(&lines[at + 1..]) {
        let e = u32::from(line.depth);
        if e <= d {
            break;
        }
        if e == d + 1 {
            resolve_body(cells, &rows[first_row..r], first_cell);
            first_cell = n;
            first_row = r;
        } else if e == d + 2 {
            rows[r] = row_of(i, n);
            r += 1;
        } else if e == d + 3 {
            put_cell(
                cells,
                n,
                cell_of(i, u32::from(line.cols), u32::from(line.rows)),
            );
            n += 1;
            rows[r - 1].end = n as u32;
        }
    }
    resolve_body(cells, &rows[first_row..r], first_cell);
    Listed { cells: n, rows: r }
}

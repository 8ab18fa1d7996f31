// What the public calls answer of a sheet and of each of its tables, printed from the buffers that they fill: it is compared with the Rust.
// `as` where a count of 32 bits becomes a `usize`, for which there is no `From`.
ghost use Rattle.std.specs.Prelude.{◌≤◌};
ghost use Rattle.common.specs.Limits.{max_lines, max_entries};

use answers::Grid;
use common::{MAX_ENTRIES, MAX_LINES, MAX_POSITION};
use kinds::Kind;
use records::{Entry, NodeRecord, RowEnd};
use settings::Given;
use table_text::entries::{Entries, row_ends};
use table_text::lines::Listing;
use table_text::tables::{cells, heading};

// The rows and the entries of a small table.
const SMALL: usize = 256;

// The first so many of a buffer.
fn front<T>(buffer: &[T], count: u32) -> &[T] {
    buffer.get(..count as usize).unwrap_or(buffer)
}

// The rows of a grid as records, from the buffers that the call fills: as many as the first slice has.
fn row_records(row: &[u32], end: &[u32], rows: &mut [RowEnd]) {
    for (made, (line, end)) in rows.iter_mut().zip(row.iter().zip(end)) {
        *made = RowEnd {
            line: *line,
            end: *end,
        };
    }
}

// The entries of a grid as records, likewise.
fn entry_records(cell: &[u32], first: &[u32], span: &[u32], entries: &mut [Entry]) {
    let figures = cell.iter().zip(first.iter().zip(span));
    for (made, (cell, (first, span))) in entries.iter_mut().zip(figures) {
        *made = Entry {
            cell: *cell,
            first: *first,
            span: *span,
        };
    }
}

// Puts what is asked for of a grid that was written to the five buffers: how many columns it has, and its entries with their first columns and spans. The
// records are made in arrays of R rows and E entries. It is never taken into its caller's frame: so a small table does not pay for the arrays of a large one.
#[inline(never)]
fn put_made<F, const R: usize, const E: usize>(
    out: &mut Listing<'_>,
    grid: Grid,
    cell: &[u32],
    first: &[u32],
    span: &[u32],
    row: &[u32],
    end: &[u32],
    put: F,
)
where
    F: Fn(&mut Listing<'_>, u32, Entries),
    requires callable { F.IsAlwaysCallable put }
    requires sizes { (R ≤ max_lines) × (E ≤ max_entries) }
{
    let mut rows = [records::NO_ROW; R];
    row_records(front(row, grid.rows), end, &mut rows);
    let mut entries = [records::NO_ENTRY; E];
    entry_records(front(cell, grid.entries), first, span, &mut entries);
    let made = Entries {
        rows: front(&rows, grid.rows),
        grid: &entries,
        start: first,
        extent: span,
    };
    put(out, grid.columns, made);
}

// The same of the grid of the table on a line.
// The arrays are declared here and in each function that calls: none can hand out slices of its own, and there is no heap.
fn put_grid<F>(out: &mut Listing<'_>, sheet: &[u8], line: u32, put: F)
where
    F: Fn(&mut Listing<'_>, u32, Entries),
    requires callable { F.IsAlwaysCallable put }
{
    let mut cell = [0u32; MAX_ENTRIES];
    let mut first = [0u32; MAX_ENTRIES];
    let mut span = [0u32; MAX_ENTRIES];
    let mut row = [0u32; MAX_LINES];
    let mut end = [0u32; MAX_LINES];
    let made = call_grid::grid(
        sheet, line, &mut cell, &mut first, &mut span, &mut row, &mut end,
    );
    let Ok(grid) = made else {
        return;
    };
    if grid.rows as usize <= SMALL && grid.entries as usize <= SMALL {
        put_made::<F, SMALL, SMALL>(out, grid, &cell, &first, &span, &row, &end, put);
    } else {
        put_made::<F, MAX_LINES, MAX_ENTRIES>(out, grid, &cell, &first, &span, &row, &end, put);
    }
}

// Puts the layout of the table on a line. It is put only of an accepted sheet and of a table's line, which no call refuses.
pub fn layout(out: &mut Listing<'_>, sheet: &[u8], line: u32, given: Given) {
    let mut column = [0u32; MAX_POSITION];
    let mut x = [0u32; MAX_ENTRIES];
    let mut wide = [0u32; MAX_ENTRIES];
    let Ok(laid) = call_layout::layout(
        sheet,
        line,
        given.wrap,
        given.raw,
        given.width,
        &mut column,
        &mut x,
        &mut wide,
    ) else {
        return;
    };
    heading(out, line, laid.way, laid.columns, laid.width);
    put_grid(out, sheet, line, |out, _, made| {
        let laid_out = Entries {
            rows: made.rows,
            grid: made.grid,
            start: &x,
            extent: &wide,
        };
        cells(out, front(&column, laid.columns), laid_out);
    });
}

// Puts a grid: its columns, its entries with their first columns and spans, and the ends of its rows.
fn grid_lines(out: &mut Listing<'_>, line: u32, columns: u32, entries: Entries) {
    out.words(b"grid cols\n");
    out.two(line, columns);
    out.words(b"row cell first span\n");
    entries.put(out);
    out.words(b"row end\n");
    row_ends(out, entries.rows);
}

// Puts the grid of the table on a line, which no call refuses either.
pub fn grid(out: &mut Listing<'_>, sheet: &[u8], line: u32) {
    put_grid(
        out,
        sheet,
        line,
        |out, columns, made| grid_lines(out, line, columns, made),
    );
}

// Puts what is asked for of every table of a sheet, in the order of their lines.
pub fn each_table<F>(out: &mut Listing<'_>, lines: &[NodeRecord], put: F)
where
    F: Fn(&mut Listing<'_>, u32),
    requires callable { F.IsAlwaysCallable put }
{
    for (i, here) in (1..u32::MAX).zip(lines) {
        if here.kind == Kind::Table {
            put(out, i);
        }
    }
}

// Puts a line for each line of the sheet, with its three figures, of which there are as many as the first slice has.
fn estimate_lines(out: &mut Listing<'_>, size: &[u32], least: &[u32], prefix: &[u32]) {
    let figures = size.iter().zip(least.iter().zip(prefix));
    for (line, (size, (least, prefix))) in (1..u32::MAX).zip(figures) {
        out.four(line, *size, *least, *prefix);
    }
}

// Puts the estimates of all lines.
pub fn estimates(out: &mut Listing<'_>, sheet: &[u8], wrap: u32) {
    let mut size = [0u32; MAX_LINES];
    let mut least = [0u32; MAX_LINES];
    let mut prefix = [0u32; MAX_LINES];
    let Ok(lines) = call_estimates::estimates(sheet, wrap, &mut size, &mut least, &mut prefix)
    else {
        return;
    };
    out.words(b"line size least prefix\n");
    estimate_lines(out, front(&size, lines), &least, &prefix);
}

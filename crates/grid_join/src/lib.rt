// Two grids joined side by side, as records of their entries and rows.
// entries and rows are two slices where they are written: of a struct of both each function would have to promise that they stay as long. They are filled
// from the front, beside a count: a `Vec` needs a heap.
// `as` where a count is known to fit: there is no `From` between 32 bits and a `usize`.
#![tactic(auto)]

ghost use Rattle.std.specs.Prelude.{◌≡◌, cond, map, ◌++◌, ◌+◌, ◌-◌, ◌≤◌, ◌<◌, max, ltb, length};
ghost use Rattle.common.specs.Lists.{All};
ghost use Rattle.common.specs.Limits.{max_position};
ghost use Rattle.grid.specs.Grid.{entries_of};
ghost use Rattle.grid_join.specs.Joined.{empty_entries, moved, end_from, filled, joined};
ghost use Rattle.grid_join.specs.inner.Reading.{row_in, grid_in, Narrow, end_at, line_at};
ghost use Rattle.grid_join.specs.inner.Parts.{right_in, shorts, Appended, RowReady, PutBothPre, Readable, JoinRowsPre, Stands};
ghost use Rattle.grid_join.specs.inner.Joins.{JoinPre, JoinPost};

use common::{MAX_ENTRIES, MAX_POSITION, Reason};
use grid_build::{Counts, Records};
use records::{Entry, RowEnd};

// Where a row ends: with its last entry.
fn row_end(row: &[Entry]) -> u32
    requires { All Narrow row.now }
    ensures { result ≡ end_from 0 (row_in row.now) }
{
    match row.last() {
        Some(e) => e.first + e.span,
        None => 0,
    }
}

// An empty entry over the columns from `from` up to `to`, if there are any, after n entries: how many there are then.
fn put_empty(from: u32, to: u32, n: usize, entries: &mut [Entry]) -> usize
    requires { n + length (empty_entries from to) ≤ length entries.old }
    ensures { Appended n result (empty_entries from to) entries.old entries.new }
{
    if from >= to {
        return n;
    }
    entries[n] = Entry {
        cell: 0,
        first: from,
        span: to - from,
    };
    n + 1
}

// A row's entries moved by some columns, after n entries: how many there are then.
fn put_moved(row: &[Entry], by: u32, n: usize, entries: &mut [Entry]) -> usize
    requires row_ready { RowReady n (row_in row.now) row.now entries.old }
    requires by_bound { by ≤ max_position }
    ensures { Appended n result (map (moved by) (row_in row.now)) entries.old entries.new }
{
    for (i, e) in row.iter().enumerate() {
        entries[n + i] = Entry {
            first: by + e.first,
            ..*e
        };
    }
    n + row.len()
}

// A left row filled up to so many columns, after n entries: how many there are then.
fn put_filled(row: &[Entry], columns: u32, n: usize, entries: &mut [Entry]) -> usize
    requires { RowReady n (filled columns (row_in row.now)) row.now entries.old }
    ensures { Appended n result (filled columns (row_in row.now)) entries.old entries.new }
{
    let end = row_end(row);
    let m = put_moved(row, 0, n, entries);
    put_empty(end, columns, m, entries)
}

// The right part of a row: the right row moved by c columns if it is there, else an empty entry over all d columns.
fn put_right(there: bool, row: &[Entry], c: u32, d: u32, n: usize, entries: &mut [Entry]) -> usize
    requires row_ready { RowReady n (right_in c d there row.now) row.now entries.old }
    requires columns_bound { c + d ≤ max_position }
    ensures { Appended n result (right_in c d there row.now) entries.old entries.new }
{
    if there {
        put_moved(row, c, n, entries)
    } else {
        put_empty(c, c + d, n, entries)
    }
}

// A left row filled up, and the right part. Where there is no left row the slice is empty.
fn put_both(
    left: &[Entry],
    there: bool,
    right: &[Entry],
    c: u32,
    d: u32,
    n: usize,
    entries: &mut [Entry],
) -> usize
    requires both_ready { PutBothPre n (filled c (row_in left.now) ++ right_in c d there right.now) left.now right.now entries.old }
    requires columns_bound { c + d ≤ max_position }
    ensures { Appended n result (filled c (row_in left.now) ++ right_in c d there right.now) entries.old entries.new }
{
    let m = put_filled(left, c, n, entries);
    put_right(there, right, c, d, m, entries)
}

// Where row i ends; of a grid that has no such row, where the last one ended.
pub fn end_at(rows: &[RowEnd], i: usize, from: usize) -> usize
    ensures { result ≡ end_at rows.now i from }
{
    if i < rows.len() {
        rows[i].end as usize
    } else {
        from
    }
}

// The line of row i: the left row's, or the right's where there is no left row.
fn line_at(left_rows: &[RowEnd], right_rows: &[RowEnd], i: usize) -> u32
    requires { i < max (length left_rows.now) (length right_rows.now) }
    ensures { result ≡ line_at left_rows.now right_rows.now i }
{
    if i < left_rows.len() {
        left_rows[i].line
    } else {
        right_rows[i].line
    }
}

// All rows, one after the other.
fn join_rows(left: Records<'_>, right: Records<'_>, entries: &mut [Entry], rows: &mut [RowEnd])
    requires left_readable { Readable left.entries.now left.rows.now }
    requires right_readable { Readable right.entries.now right.rows.now }
    requires capacity { JoinRowsPre left.columns right.columns (grid_in left.rows.now left.entries.now)
        (grid_in right.rows.now right.entries.now) entries.old rows.old }
    ensures { Stands (joined left.entry.columns right.entry.columns (grid_in left.entry.rows.now left.entry.entries.now)
        (grid_in right.entry.rows.now right.entry.entries.now)) entries.new rows.new }
{
    let c = left.columns as u32;
    let d = right.columns as u32;
    let mut l: usize = 0;
    let mut r: usize = 0;
    let mut n: usize = 0;
    for i in 0..left.rows.len().max(right.rows.len()) {
        let l_end = end_at(left.rows, i, l);
        let r_end = end_at(right.rows, i, r);
        let there = i < right.rows.len();
        n = put_both(
            &left.entries[l..l_end],
            there,
            &right.entries[r..r_end],
            c,
            d,
            n,
            entries,
        );
        let line = line_at(left.rows, right.rows, i);
        rows[i] = RowEnd {
            line,
            end: n as u32,
        };
        l = l_end;
        r = r_end;
    }
}

// How many empty entries a left row needs: one if it is short.
pub fn short(row: &[Entry], c: u32) -> usize
    requires { All Narrow row.now }
    ensures { result ≡ length (empty_entries (end_from 0 (row_in row.now)) c) }
{
    usize::from(row_end(row) < c)
}

// How many rows of the left grid are short.
fn short_rows(left: Records<'_>) -> usize
    requires readable { Readable left.entries.now left.rows.now }
    requires columns_bound { left.columns ≤ max_position }
    ensures { result ≡ shorts left.entry.columns (grid_in left.entry.rows.now left.entry.entries.now) }
{
    let c = left.columns as u32;
    let mut from: usize = 0;
    let mut n: usize = 0;
    for row in left.rows {
        let to = row.end as usize;
        n += short(&left.entries[from..to], c);
        from = to;
    }
    n
}

// How many empty entries stand in for the rows that a grid of c columns lacks beside another.
fn standing_in(c: usize, rows: usize, beside: usize) -> usize
    ensures { result ≡ cond (ltb 0 c) (beside - rows) 0 }
{
    if c == 0 {
        0
    } else {
        beside.saturating_sub(rows)
    }
}

// How many entries the joined grid has.
pub fn count(left: Records<'_>, right: Records<'_>) -> usize
    requires left_readable { Readable left.entries.now left.rows.now }
    requires right_readable { Readable right.entries.now right.rows.now }
    requires columns_bound { left.columns ≤ max_position }
    ensures { result ≡ length (entries_of (joined left.entry.columns right.entry.columns (grid_in left.entry.rows.now left.entry.entries.now)
        (grid_in right.entry.rows.now right.entry.entries.now))) }
{
    let a = left.rows.len();
    let b = right.rows.len();
    let short = short_rows(left);
    let lacks = standing_in(left.columns, a, b);
    let lacking = standing_in(right.columns, b, a);
    left.entries.len() + right.entries.len() + short + lacks + lacking
}

// Two grids joined side by side: the counts, with the joined grid in the first records, or the first of the refusals 5 and 6 that applies. It is of the
// left table's line, which the caller puts.
pub fn join(
    left: Records<'_>,
    right: Records<'_>,
    entries: &mut [Entry],
    rows: &mut [RowEnd],
) -> Result<Counts, Reason>
    requires { JoinPre left.columns right.columns left.entries.now left.rows.now right.entries.now right.rows.now entries.old rows.old }
    ensures { JoinPost left.entry.columns right.entry.columns left.entry.entries.now left.entry.rows.now
        right.entry.entries.now right.entry.rows.now result entries.new rows.new }
{
    let columns = left.columns + right.columns;
    if columns > MAX_POSITION {
        return Err(Reason::RowEnd);
    }
    let n = count(left, right);
    if n > MAX_ENTRIES {
        return Err(Reason::TooManyEntries);
    }
    join_rows(left, right, entries, rows);
    Ok(Counts {
        rows: left.rows.len().max(right.rows.len()),
        entries: n,
        columns,
    })
}

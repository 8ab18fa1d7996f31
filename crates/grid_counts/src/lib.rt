// Which of the refusals 5 and 6 applies to a table, by counting: how much hangs into each row and how many entries there are, without a grid. A row ends at
// its own cols and the spans that hang into it; a slice tells for each row of a body how much ends with it.
// The lines and the place of a table are two parameters, as `table_rows` has the two.
// `as` where a figure becomes a `usize`, or a number of rows one of 32 bits: there is no `From`, and a `TryFrom` would never fail.
// The loops end by `break`, since a turn asks by how much its line is deeper: `take_while` would ask that twice (see `table_fits` of grid_bounds).
#![tactic(auto)]

ghost use Rattle.std.specs.Prelude.{◌≡◌, ℕ, ◌≤◌, ◌<◌, ◌+◌, min, length, get_or, set};
ghost use Rattle.common.specs.Limits.{max_lines};
ghost use Rattle.records.specs.NodeRecord.{no_node};
ghost use Rattle.resolved_rows.specs.Cells.{frame};
ghost use Rattle.resolved_rows.specs.Listed.{table_rows};
ghost use Rattle.grid_counts.specs.inner.Count.{count_of, entries_checked};
ghost use Rattle.grid_counts.specs.inner.Tallies.{many_entries, Lines, RowSumPost, SurveyPost, HangsWithinPost, ready, CountRowPre, CountRowPost, BodyReady, CountBodyPost};

use common::{MAX_ENTRIES, MAX_POSITION, Reason};
use records::NodeRecord;

// What a row comes to: what ends with it or hangs on, and how many entries there are up to it.
#[derive(Clone, Copy)]
pub struct Tally {
    pub reach: u32,
    pub entries: u32,
}

// A body's rows, and their largest sum.
#[derive(Clone, Copy)]
pub struct Body {
    pub rows: usize,
    pub most: u32,
}

// One more than the entries that a table may have: counting stops there.
const MANY: u32 = MAX_ENTRIES as u32 + 1;

// Into how many rows a cell hangs, where `left` rows follow its own in the body.
fn hangs_within(rows: u32, left: u32) -> u32
    requires { left < max_lines }
    ensures { HangsWithinPost left rows result }
{
    resolved_rows::rows_within(rows, left) - 1
}

// The entries of a cell that hangs into so many rows more; no more than `MANY` are counted.
fn added(entries: u32, hangs: u32) -> u32
    requires { (entries ≤ many_entries) × (hangs < max_lines) }
    ensures { result ≡ min (entries + (hangs + 1)) many_entries }
{
    (entries + (hangs + 1)).min(MANY)
}

// So much more ends at the place `at`.
fn widen(ends: &mut [u32], at: usize, wide: u32)
    requires { (at < length ends.old) × (get_or ends.old at 0 + wide < 4294967296) }
    ensures { ends.new ≡ set ends.old at (get_or ends.old at 0 + wide) }
{
    ends[at] += wide;
}

// The sum of the cols of the row whose cells are the first of these lines, in a table of depth d; 0 counts as 1. Here and below a contract holds for
// whatever number n the first of the lines has.
fn row_sum(lines: &[NodeRecord], d: u8) -> u32
    requires { Lines lines.now d }
    ensures { (n : ℕ) → RowSumPost (frame d n lines.now).cells result }
{
    let row = d + 2;
    let cell = d + 3;
    lines
        .iter()
        .take_while(|line| row < line.depth)
        .filter(|line| line.depth == cell)
        .map(|line| u32::from(line.cols.max(1)))
        .sum()
}

// How many rows the body has that the first of these lines are, and their largest sum; and a clear place for each of its rows.
fn survey(lines: &[NodeRecord], d: u8, ends: &mut [u32]) -> Body
    requires { BodyReady lines.now d 0 ends.old }
    ensures { (n : ℕ) → SurveyPost (frame d n lines.now).rows result.rows result.most ends.new }
{
    let body = d + 1;
    let mut rows = 0;
    let mut most: u32 = 0;
    for (j, line) in lines.iter().enumerate() {
        if line.depth <= body {
            break;
        }
        if line.depth == body + 1 {
            most = most.max(row_sum(&lines[j + 1..], d));
            ends[rows] = 0;
            rows += 1;
        }
    }
    Body { rows, most }
}

// Counts the row whose cells are the first of these lines: `instead` takes the place of cols 0, `left` rows follow it in its body, and before it so much
// reaches into it and so many entries stand. Refusal 5 at the first cell that ends past 4,096.
fn count_row(
    lines: &[NodeRecord],
    d: u8,
    instead: u32,
    left: u32,
    before: Tally,
    ends: &mut [u32],
) -> Result<Tally, Reason>
    requires { CountRowPre lines.now d instead left before.reach before.entries ends.old }
    ensures { (n : ℕ) → CountRowPost (ready instead left (frame d n lines.now).cells) left before.reach before.entries ends.old ends.new result }
{
    let row = d + 2;
    let mut sum = before.reach;
    let mut n = before.entries;
    for line in lines {
        if line.depth <= row {
            break;
        }
        if line.depth == row + 1 {
            let cols = u32::from(line.cols);
            let rows = u32::from(line.rows);
            let wide = resolved_rows::filled(cols, instead);
            sum += wide;
            if MAX_POSITION < sum as usize {
                return Err(Reason::RowEnd);
            }
            let hangs = hangs_within(rows, left);
            widen(ends, hangs as usize, wide);
            n = added(n, hangs);
        }
    }
    Ok(Tally {
        reach: sum,
        entries: n,
    })
}

// Counts the body that the first of these lines are, where there are so many entries before it: how many there are up to its end, or refusal 5.
fn count_body(lines: &[NodeRecord], d: u8, entries: u32, ends: &mut [u32]) -> Result<u32, Reason>
    requires { BodyReady lines.now d entries ends.old }
    ensures { (n : ℕ) → CountBodyPost (frame d n lines.now).rows entries result }
{
    let Body { rows, most } = survey(lines, d, ends);
    let body = d + 1;
    // what hangs into row q, the next to be counted, and how many entries stand before it
    let mut reach: u32 = 0;
    let mut n = entries;
    let mut q = 0;
    for (j, line) in lines.iter().enumerate() {
        if line.depth <= body {
            break;
        }
        if line.depth == body + 1 {
            let row = &lines[j + 1..];
            let instead = most - row_sum(row, d) + 1;
            let left = (rows - q - 1) as u32;
            let before = Tally { reach, entries: n };
            let counted = count_row(row, d, instead, left, before, &mut ends[q..])?;
            reach = counted.reach - ends[q];
            n = counted.entries;
            q += 1;
        }
    }
    Ok(n)
}

// Refusal 6 if there are more entries than a table may have.
fn check_entries(entries: u32) -> Result<(), Reason>
    ensures { result ≡ entries_checked entries }
{
    if MAX_ENTRIES < entries as usize {
        return Err(Reason::TooManyEntries);
    }
    Ok(())
}

// Which of the refusals 5 and 6 applies to the table at the place `at`: 5 if a row ends past 4,096, however late, and else 6.
pub fn count_table(lines: &[NodeRecord], at: usize, ends: &mut [u32]) -> Result<(), Reason>
    requires at_in_bounds { at < length lines.now }
    requires body_ready { BodyReady lines.now (get_or lines.now at no_node).depth 0 ends.old }
    ensures { result ≡ count_of (table_rows lines.now at) }
{
    let d = lines[at].depth;
    let rest = &lines[at + 1..];
    let mut n: u32 = 0;
    for (i, line) in rest.iter().enumerate() {
        if line.depth <= d {
            break;
        }
        if line.depth == d + 1 {
            n = count_body(&rest[i + 1..], d, n, ends)?;
        }
    }
    check_entries(n)
}

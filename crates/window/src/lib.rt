// A table at each of a list of widths: its way, its width and how many of its entries are missing. The sizes and leasts of its columns are made
// once; a width costs shares and cutting, and one pass over the entries. No layout is kept. The Rust has no counterpart.
// raw and width are two parameters, as the definitions have them, and raw a number. Sizes and leasts are a slice each, as there is a list of each.
// way, wide and missing are a slice each, as C lends them.
// `as` where a count becomes a number of 32 bits, or one of these is compared with a length: there is no `From`, and a `TryFrom` would never fail.
#![tactic(auto)]

ghost use Rattle.std.specs.Prelude.{◌≡◌, length};
ghost use Rattle.columns.specs.Columns.{up_to};
ghost use Rattle.table_layout.specs.inner.Laying.{box_rows_by};
ghost use Rattle.window.specs.inner.Counting.{nonzero_before, missing_count, missing_by, CountBeforePre, CountMissingPre, MissingInPre};
ghost use Rattle.window.specs.inner.Lines.{SizedTableKnown, AtWidthPre, AtWidthPost, WriteLinesPre, WriteLinesPost};
ghost use Rattle.window.specs.inner.Report.{WriteReportPre, WriteReportPost};

use common::MAX_POSITION;
use grid_build::Records;
use records::Entry;
use text::Estimate;
use widths::Laid;

// One more than there are columns at most.
const MAX_PLACES: usize = MAX_POSITION + 1;

// A table's entries, and the sizes and leasts of its columns.
#[derive(Clone, Copy)]
struct SizedTable<'a> {
    entries: &'a [Entry],
    sizes: &'a [u32],
    leasts: &'a [u32],
    ghost known: { SizedTableKnown entries.now sizes.now leasts.now },
}

// A table at one width: its way and its own width, and how many entries are missing.
#[derive(Clone, Copy)]
struct AtWidth {
    laid: Laid,
    missing: u32,
}

// Place j: how many of the first j columns are not 0 wide. There is one place more than there are columns.
fn count_before(column: &[u32], before: &mut [u32])
    requires { CountBeforePre column.now before.old }
    ensures { before.new ≡ up_to (length before.old) (nonzero_before column.now) }
{
    before[0] = 0;
    let mut n = 0;
    for (j, w) in column.iter().enumerate() {
        n += u32::from(*w != 0);
        before[j + 1] = n;
    }
}

// How many entries end with the count that they begin with: each of their columns is 0 wide.
fn count_missing(entries: &[Entry], before: &[u32]) -> usize
    requires { CountMissingPre entries.now before.now }
    ensures { result ≡ missing_by before.now entries.now }
{
    let mut n = 0;
    for e in entries {
        let c = e.columns();
        if before[c.start] == before[c.end] {
            n += 1;
        }
    }
    n
}

// How many entries are missing where the columns have these final widths. Where no column is 0 wide none is, and the entries are not looked at.
fn missing_in(entries: &[Entry], column: &[u32], before: &mut [u32]) -> u32
    requires { MissingInPre entries.now column.now before.old }
    ensures { result ≡ missing_count column.now entries.now }
{
    count_before(column, before);
    if before[column.len()] as usize == column.len() {
        return 0;
    }
    count_missing(entries, before) as u32
}

// The table at a width.
fn at_width(
    t: SizedTable<'_>,
    raw: u32,
    width: u32,
    column: &mut [u32],
    before: &mut [u32],
) -> AtWidth
    requires { AtWidthPre t.sizes.now column.old before.old }
    ensures { AtWidthPost t.entry.entries.now t.entry.sizes.now t.entry.leasts.now raw width result }
{
    let laid = widths::lay_columns(t.sizes, t.leasts, raw, width, column);
    let missing = missing_in(t.entries, column, before);
    AtWidth { laid, missing }
}

// The table at each width, a line of the report for each. Written by index: of what an adapter of `iter_mut` wrote the language knows nothing.
fn write_lines(
    t: SizedTable<'_>,
    raw: u32,
    widths: &[u32],
    column: &mut [u32],
    before: &mut [u32],
    way: &mut [u32],
    wide: &mut [u32],
    missing: &mut [u32],
)
    requires at_width { AtWidthPre t.sizes.now column.old before.old }
    requires lines { WriteLinesPre widths.now way.old wide.old missing.old }
    ensures { WriteLinesPost t.entry.entries.now t.entry.sizes.now t.entry.leasts.now raw widths.now way.new wide.new missing.new }
{
    for (i, width) in widths.iter().enumerate() {
        let line = at_width(t, raw, *width, column, before);
        way[i] = line.laid.way.number();
        wide[i] = line.laid.width;
        missing[i] = line.missing;
    }
}

// The report on a table, of its records. The scratch is cleared with each call.
pub fn write_report(
    grid: Records<'_>,
    figures: &[Estimate],
    raw: u32,
    widths: &[u32],
    way: &mut [u32],
    wide: &mut [u32],
    missing: &mut [u32],
)
    requires { WriteReportPre grid.entries.now grid.rows.now figures.now grid.columns widths.now way.old wide.old missing.old }
    ensures { WriteReportPost grid.entry.columns (box_rows_by grid.entry.rows.now grid.entry.entries.now figures.now) raw widths.now
        way.new wide.new missing.new }
{
    let mut sizes = [0u32; MAX_POSITION];
    let mut leasts = [0u32; MAX_POSITION];
    let mut column = [0u32; MAX_POSITION];
    let mut before = [0u32; MAX_PLACES];
    let c = grid.columns;
    let sizes = &mut sizes[..c];
    let leasts = &mut leasts[..c];
    column_sizes::raise_columns(grid.entries, figures, sizes, leasts);
    let t = SizedTable {
        entries: grid.entries,
        sizes,
        leasts,
    };
    write_lines(
        t,
        raw,
        widths,
        &mut column[..c],
        &mut before[..c + 1],
        way,
        wide,
        missing,
    );
}

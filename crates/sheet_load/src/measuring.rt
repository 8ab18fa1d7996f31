// A sheet opened, and its lines measured: all of them, or those below one table, which is all that its layout needs. The grids of the tables among them are
// made in lent scratch.
// lines and figures are two slices: both are written, and nothing is known of them before. entries and rows are lent on as scratch.
ghost use Rattle.std.specs.Prelude.{◌≡◌, true, ◌≤◌, length};
ghost use Rattle.common.specs.Limits.{max_entries, max_lines};
ghost use Rattle.sheet.specs.inner.Steps.{line_bound};
ghost use Rattle.sheet_load.specs.inner.Measures.{Enough, ScratchForAny, MeasureSheetPost, MeasureTablePost};

use common::{MAX_ENTRIES, MAX_LINES, Refusal};
use records::{Entry, NodeRecord, RowEnd};
use text::Estimate;

// Whether records of so many entries and rows do for the grid of every table of a sheet: the entries are as many as a table may have, and the rows too or as
// many as the sheet has lines; or they are as many as the cells of the sheet ask for.
pub fn enough(lines: &[NodeRecord], entries: usize, rows: usize) -> bool
    ensures enough { result ≡ true → Enough entries rows lines.now }
    ensures any { max_entries ≤ entries → max_lines ≤ rows → result ≡ true }
{
    let any = entries >= MAX_ENTRIES && (rows >= MAX_LINES || lines.len() <= rows);
    any || grid_bounds::whole::suffice(lines, entries, rows)
}

// Opens a sheet and measures all its lines, with scratch for any table, of which nothing is cleared: `leasts` has a place for each column, the others records.
pub fn measure_sheet(
    bytes: &[u8],
    asked: Option<u32>,
    wrap: u32,
    lines: &mut [NodeRecord],
    figures: &mut [Estimate],
    leasts: &mut [u32],
    entries: &mut [Entry],
    rows: &mut [RowEnd],
) -> Result<usize, Refusal>
    requires bytes_bound { line_bound bytes.now ≤ length lines.old }
    requires bytes_in_bounds { line_bound bytes.now ≤ length figures.old }
    requires scratch_for_any { ScratchForAny leasts.old entries.old rows.old }
    ensures { MeasureSheetPost asked bytes.now wrap result lines.new figures.new }
{
    let n = super::open_sheet(bytes, asked, lines, leasts)?;
    estimates::measure(wrap, &lines[..n], figures, leasts, entries, rows);
    Ok(n)
}

// Opens a sheet for the table in a line, and measures what lies below that table, with the same scratch.
pub fn measure_table(
    bytes: &[u8],
    line: u32,
    wrap: u32,
    lines: &mut [NodeRecord],
    figures: &mut [Estimate],
    leasts: &mut [u32],
    entries: &mut [Entry],
    rows: &mut [RowEnd],
) -> Result<usize, Refusal>
    requires bytes_bound { line_bound bytes.now ≤ length lines.old }
    requires bytes_in_bounds { line_bound bytes.now ≤ length figures.old }
    requires scratch_for_any { ScratchForAny leasts.old entries.old rows.old }
    ensures { MeasureTablePost bytes.now line wrap result lines.new figures.new }
{
    let n = super::open_sheet(bytes, Some(line), lines, leasts)?;
    let at = (line - 1) as usize;
    estimates::measure_below(wrap, &lines[..n], at, figures, leasts, entries, rows);
    Ok(n)
}

// Whether no table of a sheet can be refused, by one bound on all cells of the sheet: one pass, however deep tables stand in tables.
ghost use Rattle.std.specs.Prelude.{◌≡◌, true, ◌≤◌};
ghost use Rattle.common.specs.Limits.{max_entries};
ghost use Rattle.grid_bounds.specs.inner.Sheets.{SheetBound, Suffice};

use common::MAX_ENTRIES;
use kinds::Kind;
use records::NodeRecord;

// Whether all cells of the sheet together span no more columns than a row may, and ask for at most `most` rows, so that no table has more entries; none
// has cols 0 or rows 0. Its turn is like one of `table_fits`, which adds up what hangs too: as one function both would take and give three numbers.
pub fn sheet_fits(lines: &[NodeRecord], most: u32) -> bool
    requires { most ≤ max_entries }
    ensures { result ≡ true → SheetBound most lines.now }
{
    let mut end: u32 = 0;
    let mut entries: u32 = 0;
    for line in lines {
        if line.kind == Kind::Cell {
            let cols = u32::from(line.cols);
            let rows = u32::from(line.rows);
            if !super::within_bounds(cols, rows, end, entries, most) {
                return false;
            }
            end += cols;
            entries += rows;
        }
    }
    true
}

// The smaller of a number of records and the entries that a table may have.
fn most_of(entries: usize) -> u32
    ensures { (result ≤ entries) × (result ≤ max_entries) }
{
    entries.min(MAX_ENTRIES) as u32
}

// Whether so many records of entries and of rows suffice for the grid of any table of the sheet.
pub fn suffice(lines: &[NodeRecord], entries: usize, rows: usize) -> bool
    ensures { result ≡ true → Suffice entries rows lines.now }
{
    lines.len() <= rows && sheet_fits(lines, most_of(entries))
}

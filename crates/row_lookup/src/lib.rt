// Where a row of a table stands: it is found in a sheet by the table's line and the row's number, and the table is laid out.
// x and wide are two slices, as placing writes them; `PlacesCapacity` and `GridCapacity` are asked in three contracts, and go on with
// what is lent (docs/DESIGN-PASS.md).
// `as` where a line, a row or its end becomes a `usize`, for which there is no `From`.
#![tactic(auto)]

mod making; // the row of one table of a measured sheet
mod starts; // where the rows of a grid start

ghost use Rattle.std.specs.Prelude.{◌≡◌, MatchResult, Some, Ok, Err};
ghost use Rattle.sheet_load.specs.Opening.{open_checks};
ghost use Rattle.row_lookup.specs.inner.Ranges.{PlacesCapacity, RangeFound};

use arguments::Settings;
use common::{MAX_ENTRIES, MAX_LINES, Refusal};
use table_layout::MeasuredTable;

// Where a row stands: the numbers of the entries at which it starts, at which it ends, and at which the next one ends.
#[derive(Clone, Copy, Debug, PartialEq, Eq)]
pub struct Span {
    pub first: usize,
    pub end: usize,
    pub next: usize,
}

// Opens and measures the sheet. All below works in these arrays, which are declared in each call: no function can hand out slices of its own.
fn find_sheet(
    sheet: &[u8],
    line: u32,
    settings: Settings,
    row: u32,
    x: &mut [u32],
    wide: &mut [u32],
) -> Result<Span, Refusal>
    requires { PlacesCapacity x.old wide.old }
    ensures { RangeFound (open_checks (Some line) sheet.now) sheet.now line settings.wrap settings.raw settings.width row result x.new wide.new }
{
    let mut lines = [records::NO_NODE; MAX_LINES];
    let mut figures = [estimates::NONE; MAX_LINES];
    let mut entries = [records::NO_ENTRY; MAX_ENTRIES];
    let mut rows = [records::NO_ROW; MAX_LINES];
    let mut column = [0u32; MAX_LINES];
    let n = sheet_load::measuring::measure_table(
        sheet,
        line,
        settings.wrap,
        &mut lines,
        &mut figures,
        &mut column,
        &mut entries,
        &mut rows,
    )?;
    let t = MeasuredTable {
        lines: &lines[..n],
        figures: &figures,
        at: (line - 1) as usize,
    };
    crate::making::find_row(
        t,
        settings,
        row,
        &mut entries,
        &mut rows,
        &mut column,
        x,
        wide,
    )
}

// What is found in the sheet, unless the arguments are refused; the places of all entries of the table are left in the slices.
// A function and no closure: of what a closure given to `and_then` leaves in the slices nothing is known after it.
pub fn find(
    sheet: &[u8],
    line: u32,
    asked: Result<Settings, Refusal>,
    row: u32,
    x: &mut [u32],
    wide: &mut [u32],
) -> Result<Span, Refusal>
    requires { PlacesCapacity x.old wide.old }
    ensures { MatchResult asked
        (λ g. RangeFound (open_checks (Some line) sheet.now) sheet.now line g.wrap g.raw g.width row result x.new wide.new)
        (λ why. result ≡ Err why) }
{
    let settings = asked?;
    find_sheet(sheet, line, settings, row, x, wide)
}

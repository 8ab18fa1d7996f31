// The call `window`: a table at each of a list of widths. It asks its arguments first; then the report is written to the front of the lent buffers,
// and in the end it clears what is no line of the report. A refused call clears all.
// wrap and raw, and each buffer, are a parameter, as the C interface hands them over, down to the function that writes; `GridCapacity` goes on
// with the slices to work in.
// `as` where a count or a place becomes a `usize`, or a count one of 32 bits: there is no `From`, and a `TryFrom` would never fail.
#![tactic(auto)]

mod sheets; // of the table in a line of a sheet
mod making; // of one table of a measured sheet

ghost use Rattle.std.specs.Prelude.{◌≡◌, MatchResult, Some, Ok, Err};
ghost use Rattle.sheet_load.specs.Opening.{open_checks};
ghost use Rattle.arguments.specs.inner.Asked.{verdict_in};
ghost use Rattle.call_window.specs.Window.{WindowAnswer};
ghost use Rattle.call_window.specs.inner.Found.{ReportCapacity, WindowFound};

use arguments::Settings;
use common::Refusal;

// What is found in the sheet, unless the arguments are refused. A function and no closure: of what a closure given to `and_then` leaves in the lent
// buffers nothing is known after it.
#[tactic(auto, unfolding(arguments::specs::inner::Asked::verdict_in))]
fn find_window(
    sheet: &[u8],
    line: u32,
    asked: Result<Settings, Refusal>,
    widths: &[u32],
    way: &mut [u32],
    wide: &mut [u32],
    missing: &mut [u32],
) -> Result<u32, Refusal>
    requires { verdict_in asked ≡ Ok tt → ReportCapacity widths.now way.old wide.old missing.old }
    ensures { MatchResult asked
        (λ g. WindowFound (open_checks (Some line) sheet.now) sheet.now line g.wrap g.raw widths.now result way.new wide.new missing.new)
        (λ why. result ≡ Err why) }
{
    let settings = asked?;
    sheets::report_sheet(sheet, line, settings, widths, way, wide, missing)
}

// The table in a line at each width of the list: the number of its way, its own width, and how many of its entries are missing. It answers how many
// widths there are.
pub fn window(
    sheet: &[u8],
    line: u32,
    wrap: u32,
    raw: u32,
    widths: &[u32],
    way: &mut [u32],
    wide: &mut [u32],
    missing: &mut [u32],
) -> Result<u32, Refusal>
    ensures { WindowAnswer sheet.now line wrap raw widths.now way.old wide.old missing.old result way.new wide.new missing.new }
{
    let asked = Settings::of_window(wrap, raw, widths, way.len(), wide.len(), missing.len());
    let found = find_window(sheet, line, asked, widths, way, wide, missing);
    let n = found.map_or(0, |count| count as usize);
    common::zero_rest(way, n);
    common::zero_rest(wide, n);
    common::zero_rest(missing, n);
    found
}

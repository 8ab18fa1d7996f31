// The call `missing`: which entries of a table are missing, and why each column is 0 wide that is. It asks its arguments first; then what is found in
// the sheet stands in the lent buffers, and in the end it clears what is no figure. A refused call clears all.
// wrap, raw and width, and each buffer, are a parameter, as the C interface hands them over, down to the function that writes; `GridCapacity` goes on
// with the slices to work in.
// `as` where a count or a place becomes a `usize`, or a count one of 32 bits: there is no `From`, and a `TryFrom` would never fail.
#![tactic(auto)]

mod sheets; // of the table in a line of a sheet
mod making; // of one table of a measured sheet

ghost use Rattle.std.specs.Prelude.{◌≡◌, MatchResult, Some, Ok, Err};
ghost use Rattle.sheet_load.specs.Opening.{open_checks};
ghost use Rattle.arguments.specs.inner.Asked.{verdict_in};
ghost use Rattle.call_missing.specs.Missing.{MissingAnswer};
ghost use Rattle.call_missing.specs.inner.Found.{ExplainCapacity, MissingFound};

use answers::Causes;
use arguments::Settings;
use common::Refusal;

// What is found in the sheet, unless the arguments are refused. A function and no closure: of what a closure given to `and_then` leaves in the lent
// buffers nothing is known after it.
#[tactic(auto, unfolding(arguments::specs::inner::Asked::verdict_in))]
fn find_missing(
    sheet: &[u8],
    line: u32,
    asked: Result<Settings, Refusal>,
    entry: &mut [u32],
    cause: &mut [u32],
) -> Result<Causes, Refusal>
    requires { verdict_in asked ≡ Ok tt → ExplainCapacity entry.old cause.old }
    ensures { MatchResult asked
        (λ g. MissingFound (open_checks (Some line) sheet.now) sheet.now line g.wrap g.raw g.width result entry.new cause.new)
        (λ why. result ≡ Err why) }
{
    let settings = asked?;
    sheets::explain_sheet(sheet, line, settings, entry, cause)
}

// The missing entries of the table in a line, each by its number in the grid, and the cause of each of its columns.
pub fn missing(
    sheet: &[u8],
    line: u32,
    wrap: u32,
    raw: u32,
    width: u32,
    entry: &mut [u32],
    cause: &mut [u32],
) -> Result<Causes, Refusal>
    ensures { MissingAnswer sheet.now line wrap raw width entry.old cause.old result entry.new cause.new }
{
    let asked = Settings::of_missing(wrap, raw, width, entry.len(), cause.len());
    let found = find_missing(sheet, line, asked, entry, cause);
    let n = found.map_or(0, |causes| causes.count as usize);
    let m = found.map_or(0, |causes| causes.columns as usize);
    common::zero_rest(entry, n);
    common::zero_rest(cause, m);
    found
}

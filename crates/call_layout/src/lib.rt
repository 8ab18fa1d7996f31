// The call `layout`: the layout of the table in a line of a sheet. It asks its arguments first; then what is found in the sheet stands in the lent
// buffers, and in the end it clears what is no figure. A refused call clears all.
// wrap, raw and width, and each buffer, are a parameter, as the C interface hands them over, down to the function that writes; `OutCapacity` goes on
// with the buffers (docs/DESIGN-PASS.md).
// `as` where a count or a place becomes a `usize`, for which there is no `From`.
// `(L ≤ max_lines) × (E ≤ max_entries)` is of const parameters, and so no type's.
#![tactic(auto)]

mod arrays; // the arrays to work in, by the size of the sheet
pub mod read; // one table of an accepted sheet

ghost use Rattle.std.specs.Prelude.{◌≡◌, MatchResult, Some, Ok, Err};
ghost use Rattle.table_layout.specs.inner.Asked.{OutCapacity};
ghost use Rattle.sheet_load.specs.Opening.{open_checks};
ghost use Rattle.arguments.specs.inner.Asked.{verdict_in};
ghost use Rattle.call_layout.specs.Layout.{LayoutAnswer};
ghost use Rattle.call_layout.specs.inner.Found.{LayoutFound};

use answers::Layout;
use arguments::Settings;
use common::Refusal;

// What is found in the sheet, unless the arguments are refused. A function and no closure: of what a closure given to `and_then` leaves in the lent
// buffers nothing is known after it.
#[tactic(auto, unfolding(arguments::specs::inner::Asked::verdict_in))]
fn find_layout(
    sheet: &[u8],
    line: u32,
    asked: Result<Settings, Refusal>,
    column: &mut [u32],
    x: &mut [u32],
    wide: &mut [u32],
) -> Result<Layout, Refusal>
    requires { verdict_in asked ≡ Ok tt → OutCapacity column.old x.old wide.old }
    ensures { MatchResult asked
        (λ g. LayoutFound (open_checks (Some line) sheet.now) sheet.now line g.wrap g.raw g.width result column.new x.new wide.new)
        (λ why. result ≡ Err why) }
{
    let settings = asked?;
    arrays::layout_within(sheet, line, settings, column, x, wide)
}

// The layout of the table in a line: the width of each column, and the place and the width of each entry.
pub fn layout(
    sheet: &[u8],
    line: u32,
    wrap: u32,
    raw: u32,
    width: u32,
    column: &mut [u32],
    x: &mut [u32],
    wide: &mut [u32],
) -> Result<Layout, Refusal>
    ensures { LayoutAnswer sheet.now line wrap raw width
        column.old x.old wide.old result column.new x.new wide.new }
{
    let asked = Settings::of_layout(wrap, raw, width, column.len(), x.len(), wide.len());
    let found = find_layout(sheet, line, asked, column, x, wide);
    let n = found.map_or(0, |layout| layout.columns as usize);
    let m = found.map_or(0, |layout| layout.entries as usize);
    common::zero_rest(column, n);
    common::zero_rest(x, m);
    common::zero_rest(wide, m);
    found
}

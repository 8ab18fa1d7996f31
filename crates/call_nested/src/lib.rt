// The call `nested`: the layout of one table at the width that the walk gives it. It asks its arguments first; then what is found in the sheet stands
// in the lent buffers, and in the end it clears what is no figure. A refused call clears all.
// wrap, raw, width and overflow, and each buffer, are a parameter, as the C interface hands them over, down to the function that writes.
// `as` where a count or a place becomes a `usize`, for which there is no `From`.
#![tactic(auto)]

mod nesting; // one table, laid out at the width that the walk gives it

ghost use Rattle.call_nested.specs.Nested.{NestedAnswer};

use answers::Nested;
use arguments::Settings;
use common::Refusal;

// The layout of the table in a line, at the width that the walk gives it: the width of each column, and the place and the width of each entry.
pub fn nested(
    sheet: &[u8],
    line: u32,
    wrap: u32,
    raw: u32,
    width: u32,
    overflow: u32,
    column: &mut [u32],
    x: &mut [u32],
    wide: &mut [u32],
) -> Result<Option<Nested>, Refusal>
    ensures { NestedAnswer sheet.now line wrap raw width overflow
        column.old x.old wide.old result column.new x.new wide.new }
{
    let asked = Settings::of_nested(
        wrap,
        raw,
        width,
        overflow,
        column.len(),
        x.len(),
        wide.len(),
    );
    let found = nesting::find_nested(sheet, line, asked, column, x, wide);
    let n = found.map_or(0, |nested| nested.map_or(0, |t| t.layout.columns as usize));
    let m = found.map_or(0, |nested| nested.map_or(0, |t| t.layout.entries as usize));
    common::zero_rest(column, n);
    common::zero_rest(x, m);
    common::zero_rest(wide, m);
    found
}

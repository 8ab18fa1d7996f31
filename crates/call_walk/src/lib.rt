// The call `walk`: which width each line of a sheet gets from its first line's. It asks its arguments first; then what is found in the sheet stands
// in the lent buffers, and in the end it clears what is no figure. A refused call clears all.
// wrap, raw, width and overflow, and each buffer, are a parameter, as the C interface hands them over, down to the function that writes.
// `as` where the number of lines is known to fit 32 bits: a `TryFrom` would never fail.
#![tactic(auto)]

mod walking_out; // the walk, written to the lent buffers

ghost use Rattle.call_walk.specs.Walks.{WalkAnswer};

use arguments::Settings;
use common::Refusal;

// The widths of a sheet's lines, where the first has the width `width`: whether each has one, and which.
pub fn walk(
    sheet: &[u8],
    wrap: u32,
    raw: u32,
    width: u32,
    overflow: u32,
    given: &mut [u32],
    wide: &mut [u32],
) -> Result<u32, Refusal>
    ensures { WalkAnswer sheet.now wrap raw width overflow given.old wide.old result given.new wide.new }
{
    let asked = Settings::of_walk(wrap, raw, width, overflow, given.len(), wide.len());
    let read = walking_out::find_walk(sheet, asked, given, wide);
    let n = read.unwrap_or(0);
    common::zero_rest(given, n);
    common::zero_rest(wide, n);
    Ok(read? as u32)
}

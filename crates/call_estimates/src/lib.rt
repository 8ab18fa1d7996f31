// The calls `check`, whether a sheet is accepted, and `estimates`, the figures of its lines. `estimates` asks its arguments first; then what is found in
// the sheet stands in the lent buffers, and in the end it clears what is no figure. A refused call clears all.
// Each buffer is a parameter, as the C interface lends it, down to the function that writes it; `LinesCapacity` goes on with them (docs/DESIGN-PASS.md).
// `as` where the number of lines is known to fit 32 bits: a `TryFrom` would never fail.
// `L ≤ max_lines` is of a const parameter, and so no type's.
#![tactic(auto)]

mod arrays; // the arrays to work in, by the size of the sheet

ghost use Rattle.std.specs.Prelude.{◌≡◌, ◌∷◌, None};
ghost use Rattle.common.specs.Refusals.{verdict_of};
ghost use Rattle.sheet_load.specs.Opening.{open_checks};
ghost use Rattle.sheet_figures.specs.Calls.{check_checks};
ghost use Rattle.sheet_figures.specs.inner.Early.{early};
ghost use Rattle.call_estimates.specs.Estimates.{EstimatesAnswer};
ghost use Rattle.call_estimates.specs.inner.Found.{LinesCapacity, EstimatesFound};

use common::Refusal;

// Whether a sheet is accepted: read, and every table of it checked.
pub fn check(sheet: &[u8]) -> Result<(), Refusal>
    ensures { result ≡ verdict_of (check_checks sheet.now) }
{
    arrays::check_within(sheet)?;
    Ok(())
}

// What is found in the sheet, unless the arguments are refused. A function and no closure: of what a closure given to `and_then` leaves in the lent
// buffers nothing is known after it.
fn find_estimates(
    sheet: &[u8],
    wrap: u32,
    asked: Result<(), Refusal>,
    size: &mut [u32],
    least: &mut [u32],
    prefix: &mut [u32],
) -> Result<usize, Refusal>
    requires { asked ≡ Ok tt → LinesCapacity size.old least.old prefix.old }
    ensures { EstimatesFound (early asked ∷ open_checks None sheet.now) sheet.now wrap result size.new least.new prefix.new }
{
    asked?;
    arrays::estimates_within(sheet, wrap, size, least, prefix)
}

// The size, the least width and the prefix of every line of a sheet.
pub fn estimates(
    sheet: &[u8],
    wrap: u32,
    size: &mut [u32],
    least: &mut [u32],
    prefix: &mut [u32],
) -> Result<u32, Refusal>
    ensures { EstimatesAnswer sheet.now wrap size.old least.old prefix.old result size.new least.new prefix.new }
{
    let asked = arguments::of_estimates(wrap, size.len(), least.len(), prefix.len());
    let read = find_estimates(sheet, wrap, asked, size, least, prefix);
    let n = read.unwrap_or(0);
    common::zero_rest(size, n);
    common::zero_rest(least, n);
    common::zero_rest(prefix, n);
    Ok(read? as u32)
}

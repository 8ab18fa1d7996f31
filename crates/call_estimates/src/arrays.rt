// The arrays in which a sheet is read and measured, of four sizes. They are cleared with each call, and for a short sheet short ones do.
ghost use Rattle.std.specs.Prelude.{◌≡◌, ◌≤◌, None, Result};
ghost use Rattle.common.specs.Limits.{max_entries, max_lines};
ghost use Rattle.sheet.specs.inner.Steps.{line_bound};
ghost use Rattle.sheet_load.specs.Opening.{open_checks, opened_of};
ghost use Rattle.sheet_load.specs.inner.Measures.{Decided, Tried};
ghost use Rattle.call_estimates.specs.inner.Found.{LinesCapacity, WriteFiguresPre, WriteFiguresPost, EstimatesFound};

use common::{MAX_ENTRIES, MAX_LINES, Refusal};
use sheet_load::{FEW_LINES, MANY_LINES, SMALL_LINES};
use text::Estimate;

// What reading a sheet and checking its tables answers, in arrays of L lines. It is never taken into its caller's
// frame: so a small sheet does not pay for the arrays of a large one.
#[inline(never)]
fn check_in<const L: usize>(sheet: &[u8]) -> Result<usize, Refusal>
    requires capacity { line_bound sheet.now ≤ L }
    requires sizes { L ≤ max_lines }
    ensures { result ≡ opened_of None sheet.now }
{
    let mut lines = [records::NO_NODE; L];
    let mut scratch = [0u32; L];
    sheet_load::open_sheet(sheet, None, &mut lines, &mut scratch)
}

// The same in the shortest arrays that do. Not by `estimates_short`: no second length is asked for here.
pub fn check_within(sheet: &[u8]) -> Result<usize, Refusal>
    ensures { result ≡ opened_of None sheet.now }
{
    let lines = sheet_load::most_lines(sheet);
    if lines <= FEW_LINES {
        check_in::<FEW_LINES>(sheet)
    } else if lines <= SMALL_LINES {
        check_in::<SMALL_LINES>(sheet)
    } else if lines <= MANY_LINES {
        check_in::<MANY_LINES>(sheet)
    } else {
        check_in::<MAX_LINES>(sheet)
    }
}

// The three figures of each line, in the front of its buffer.
fn write_figures(figures: &[Estimate], size: &mut [u32], least: &mut [u32], prefix: &mut [u32])
    requires { WriteFiguresPre figures.now size.old least.old prefix.old }
    ensures { WriteFiguresPost figures.now size.new least.new prefix.new }
{
    common::write_front(figures, |e| e.size, size);
    common::write_front(figures, |e| e.least, least);
    common::write_front(figures, |e| e.prefix, prefix);
}

// The estimates of a sheet, in arrays of L lines, estimates and rows and E entries; none, if they do not suffice for the sheet's
// tables. `size` is scratch until it is written. It is never taken into its caller's frame, either.
#[inline(never)]
fn estimates_in<const L: usize, const E: usize>(
    sheet: &[u8],
    wrap: u32,
    size: &mut [u32],
    least: &mut [u32],
    prefix: &mut [u32],
) -> Result<Option<usize>, Refusal>
    requires capacity { line_bound sheet.now ≤ L }
    requires sizes { (L ≤ max_lines) × (E ≤ max_entries) }
    requires lines_capacity { LinesCapacity size.old least.old prefix.old }
    ensures tried { Tried (λ r. EstimatesFound (open_checks None sheet.now) sheet.now wrap r size.new least.new prefix.new) result }
    ensures any { max_entries ≤ E → max_lines ≤ L → Decided result }
{
    let mut lines = [records::NO_NODE; L];
    let mut figures = [estimates::NONE; L];
    let mut entries = [records::NO_ENTRY; E];
    let mut rows = [records::NO_ROW; L];
    let n = sheet_load::open_sheet(sheet, None, &mut lines, size)?;
    let lines = &lines[..n];
    if !sheet_load::measuring::enough(lines, E, L) {
        return Ok(None);
    }
    estimates::measure(wrap, lines, &mut figures, size, &mut entries, &mut rows);
    write_figures(&figures[..n], size, least, prefix);
    Ok(Some(n))
}

// The estimates in short arrays, if the sheet has few lines. Each call chooses for itself: one function for all would take a closure for each size,
// which would all hold the lent buffers.
fn estimates_short(
    sheet: &[u8],
    wrap: u32,
    size: &mut [u32],
    least: &mut [u32],
    prefix: &mut [u32],
) -> Result<Option<usize>, Refusal>
    requires { LinesCapacity size.old least.old prefix.old }
    ensures { Tried (λ r. EstimatesFound (open_checks None sheet.now) sheet.now wrap r size.new least.new prefix.new) result }
{
    let lines = sheet_load::most_lines(sheet);
    if lines <= FEW_LINES {
        estimates_in::<FEW_LINES, SMALL_LINES>(sheet, wrap, size, least, prefix)
    } else if lines <= SMALL_LINES {
        estimates_in::<SMALL_LINES, SMALL_LINES>(sheet, wrap, size, least, prefix)
    } else if lines <= MANY_LINES {
        estimates_in::<MANY_LINES, MAX_ENTRIES>(sheet, wrap, size, least, prefix)
    } else {
        Ok(None)
    }
}

// The estimates in short arrays if they suffice, and else in the longest.
// In each call by itself, for the reason at `estimates_short`.
pub fn estimates_within(
    sheet: &[u8],
    wrap: u32,
    size: &mut [u32],
    least: &mut [u32],
    prefix: &mut [u32],
) -> Result<usize, Refusal>
    requires { LinesCapacity size.old least.old prefix.old }
    ensures { EstimatesFound (open_checks None sheet.now) sheet.now wrap result size.new least.new prefix.new }
{
    let tried = estimates_short(sheet, wrap, size, least, prefix)?;
    if let Some(n) = tried {
        return Ok(n);
    }
    let tried = estimates_in::<MAX_LINES, MAX_ENTRIES>(sheet, wrap, size, least, prefix)?;
    Ok(tried.unwrap())
}

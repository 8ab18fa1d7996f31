// The arrays in which a sheet is read and its table laid out, of four sizes. They are cleared with each call, and for a short sheet short ones do.
ghost use Rattle.std.specs.Prelude.{◌≤◌, Some, Result};
ghost use Rattle.common.specs.Limits.{max_entries, max_lines};
ghost use Rattle.sheet.specs.inner.Steps.{line_bound};
ghost use Rattle.sheet_load.specs.Opening.{open_checks};
ghost use Rattle.table_layout.specs.inner.Asked.{OutCapacity};
ghost use Rattle.sheet_load.specs.inner.Measures.{Decided, Tried};
ghost use Rattle.call_layout.specs.inner.Found.{LayoutFound};

use super::read::layout_of;
use answers::Layout;
use arguments::Settings;
use common::{MAX_ENTRIES, MAX_LINES, Refusal};
use sheet_load::{FEW_LINES, MANY_LINES, SMALL_LINES};
use table_layout::MeasuredTable;

// The layout of the table in a line of a sheet, in arrays of L lines, estimates and rows and E entries; none, if they do not suffice for the sheet's
// tables. `column` is scratch until it is written. It is never taken into its caller's frame: so a small sheet does
// not pay for the arrays of a large one.
#[inline(never)]
fn layout_in<const L: usize, const E: usize>(
    sheet: &[u8],
    line: u32,
    settings: Settings,
    column: &mut [u32],
    x: &mut [u32],
    wide: &mut [u32],
) -> Result<Option<Layout>, Refusal>
    requires lines_capacity { line_bound sheet.now ≤ L }
    requires sizes { (L ≤ max_lines) × (E ≤ max_entries) }
    requires out_capacity { OutCapacity column.old x.old wide.old }
    ensures tried { Tried (λ r. LayoutFound (open_checks (Some line) sheet.now) sheet.now line settings.wrap settings.raw settings.width r
        column.new x.new wide.new) result }
    ensures any { max_entries ≤ E → max_lines ≤ L → Decided result }
{
    let mut lines = [records::NO_NODE; L];
    let mut figures = [estimates::NONE; L];
    let mut entries = [records::NO_ENTRY; E];
    let mut rows = [records::NO_ROW; L];
    let n = sheet_load::open_sheet(sheet, Some(line), &mut lines, column)?;
    let lines = &lines[..n];
    if !sheet_load::measuring::enough(lines, E, L) {
        return Ok(None);
    }
    let at = (line - 1) as usize;
    estimates::measure_below(
        settings.wrap,
        lines,
        at,
        &mut figures,
        column,
        &mut entries,
        &mut rows,
    );
    let t = MeasuredTable {
        lines,
        figures: &figures,
        at,
    };
    let layout = layout_of(
        t,
        settings.raw,
        settings.width,
        &mut entries,
        &mut rows,
        column,
        x,
        wide,
    );
    Ok(Some(layout))
}

// The layout in short arrays, if the sheet has few lines. Each call chooses for itself: one function for all would take a closure for each size,
// which would all hold the lent buffers.
fn layout_short(
    sheet: &[u8],
    line: u32,
    settings: Settings,
    column: &mut [u32],
    x: &mut [u32],
    wide: &mut [u32],
) -> Result<Option<Layout>, Refusal>
    requires { OutCapacity column.old x.old wide.old }
    ensures { Tried (λ r. LayoutFound (open_checks (Some line) sheet.now) sheet.now line settings.wrap settings.raw settings.width r
        column.new x.new wide.new) result }
{
    let lines = sheet_load::most_lines(sheet);
    if lines <= FEW_LINES {
        layout_in::<FEW_LINES, SMALL_LINES>(sheet, line, settings, column, x, wide)
    } else if lines <= SMALL_LINES {
        layout_in::<SMALL_LINES, SMALL_LINES>(sheet, line, settings, column, x, wide)
    } else if lines <= MANY_LINES {
        layout_in::<MANY_LINES, MAX_ENTRIES>(sheet, line, settings, column, x, wide)
    } else {
        Ok(None)
    }
}

// The layout in short arrays if they suffice, and else in the longest.
// In each call by itself, for the reason at `layout_short`.
pub fn layout_within(
    sheet: &[u8],
    line: u32,
    settings: Settings,
    column: &mut [u32],
    x: &mut [u32],
    wide: &mut [u32],
) -> Result<Layout, Refusal>
    requires { OutCapacity column.old x.old wide.old }
    ensures { LayoutFound (open_checks (Some line) sheet.now) sheet.now line settings.wrap settings.raw settings.width result
        column.new x.new wide.new }
{
    let tried = layout_short(sheet, line, settings, column, x, wide)?;
    if let Some(layout) = tried {
        return Ok(layout);
    }
    let tried = layout_in::<MAX_LINES, MAX_ENTRIES>(sheet, line, settings, column, x, wide)?;
    Ok(tried.unwrap())
}

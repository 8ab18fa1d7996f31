// The report on the table in a line of a sheet, written to the lent buffers.
ghost use Rattle.std.specs.Prelude.{Some};
ghost use Rattle.sheet_load.specs.Opening.{open_checks};
ghost use Rattle.call_window.specs.inner.Found.{ReportCapacity, WindowFound};

use arguments::Settings;
use common::{MAX_ENTRIES, MAX_LINES, MAX_POSITION, Refusal};
use table_layout::MeasuredTable;

// Opens and measures the sheet. The lent buffers may be as short as the list of widths, so that what is measured in is an array too. The arrays are
// declared in each call: no function can hand out slices of its own.
pub fn report_sheet(
    sheet: &[u8],
    line: u32,
    settings: Settings,
    widths: &[u32],
    way: &mut [u32],
    wide: &mut [u32],
    missing: &mut [u32],
) -> Result<u32, Refusal>
    requires { ReportCapacity widths.now way.old wide.old missing.old }
    ensures { WindowFound (open_checks (Some line) sheet.now) sheet.now line settings.wrap settings.raw widths.now result
        way.new wide.new missing.new }
{
    let mut lines = [records::NO_NODE; MAX_LINES];
    let mut figures = [estimates::NONE; MAX_LINES];
    let mut leasts = [0u32; MAX_POSITION];
    let mut entries = [records::NO_ENTRY; MAX_ENTRIES];
    let mut rows = [records::NO_ROW; MAX_LINES];
    let n = sheet_load::measuring::measure_table(
        sheet,
        line,
        settings.wrap,
        &mut lines,
        &mut figures,
        &mut leasts,
        &mut entries,
        &mut rows,
    )?;
    let t = MeasuredTable {
        lines: &lines[..n],
        figures: &figures,
        at: (line - 1) as usize,
    };
    crate::making::report(
        t,
        settings.raw,
        widths,
        &mut entries,
        &mut rows,
        way,
        wide,
        missing,
    );
    Ok(widths.len() as u32)
}

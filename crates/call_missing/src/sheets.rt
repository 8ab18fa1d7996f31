// The missing entries and the causes of the table in a line of a sheet, written to the lent buffers.
ghost use Rattle.std.specs.Prelude.{Some};
ghost use Rattle.sheet_load.specs.Opening.{open_checks};
ghost use Rattle.call_missing.specs.inner.Found.{ExplainCapacity, MissingFound};

use answers::Causes;
use arguments::Settings;
use common::{MAX_ENTRIES, MAX_LINES, Refusal};
use table_layout::MeasuredTable;

// Opens and measures the sheet. The causes are written last, and until then their buffer is scratch. The arrays are declared in each call: no function
// can hand out slices of its own.
pub fn explain_sheet(
    sheet: &[u8],
    line: u32,
    settings: Settings,
    entry: &mut [u32],
    cause: &mut [u32],
) -> Result<Causes, Refusal>
    requires { ExplainCapacity entry.old cause.old }
    ensures { MissingFound (open_checks (Some line) sheet.now) sheet.now line settings.wrap settings.raw settings.width result entry.new cause.new }
{
    let mut lines = [records::NO_NODE; MAX_LINES];
    let mut figures = [estimates::NONE; MAX_LINES];
    let mut entries = [records::NO_ENTRY; MAX_ENTRIES];
    let mut rows = [records::NO_ROW; MAX_LINES];
    let n = sheet_load::measuring::measure_table(
        sheet,
        line,
        settings.wrap,
        &mut lines,
        &mut figures,
        cause,
        &mut entries,
        &mut rows,
    )?;
    let t = MeasuredTable {
        lines: &lines[..n],
        figures: &figures,
        at: (line - 1) as usize,
    };
    let causes = crate::making::explain(t, settings, &mut entries, &mut rows, entry, cause);
    Ok(causes)
}

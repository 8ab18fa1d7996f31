// One table of a sheet, laid out at the width that the walk gives it, written to the lent buffers.
ghost use Rattle.std.specs.Prelude.{◌≡◌, MatchResult, Some, Ok, Err};
ghost use Rattle.common.specs.Limits.{max_size};
ghost use Rattle.table_layout.specs.inner.Asked.{OutCapacity};
ghost use Rattle.width_walk.specs.inner.Steps.{AtMost};
ghost use Rattle.arguments.specs.inner.Asked.{verdict_in};
ghost use Rattle.sheet_walk.specs.Sheets.{walked_checks};
ghost use Rattle.call_nested.specs.inner.Found.{NestMade, NestFound};

use answers::Nested;
use arguments::Settings;
use call_layout::read::layout_of;
use common::{MAX_ENTRIES, MAX_LINES, Refusal};
use table_layout::MeasuredTable;

// A table laid out at the width that the walk gives it, if it gives one.
// raw and width are two parameters: the width is the table's own, and not that of the settings.
// The arrays are declared here: no function can hand out slices of its own.
fn nest(
    t: MeasuredTable<'_>,
    width: Option<u32>,
    raw: u32,
    column: &mut [u32],
    x: &mut [u32],
    wide: &mut [u32],
) -> Option<Nested>
    requires width_small { AtMost max_size width }
    requires out_capacity { OutCapacity column.old x.old wide.old }
    ensures { NestMade t.entry.lines.now t.entry.at t.entry.figures.now raw width result
        column.new x.new wide.new }
{
    let at = width?;
    let mut entries = [records::NO_ENTRY; MAX_ENTRIES];
    let mut rows = [records::NO_ROW; MAX_LINES];
    let layout = layout_of(t, raw, at, &mut entries, &mut rows, column, x, wide);
    Some(Nested { at, layout })
}

// That of the table in a line of a sheet. The columns' widths are written last, and until then their buffer is scratch.
// The arrays are declared here: no function can hand out slices of its own.
fn nest_sheet(
    sheet: &[u8],
    line: u32,
    settings: Settings,
    column: &mut [u32],
    x: &mut [u32],
    wide: &mut [u32],
) -> Result<Option<Nested>, Refusal>
    requires { OutCapacity column.old x.old wide.old }
    ensures { NestFound (walked_checks (Some line) sheet.now settings.wrap settings.raw settings.width settings.overflow) sheet.now line settings.wrap settings.raw settings.width result
        column.new x.new wide.new }
{
    let mut lines = [records::NO_NODE; MAX_LINES];
    let mut figures = [estimates::NONE; MAX_LINES];
    let mut walk = [None; MAX_LINES];
    let n = sheet_walk::walk_sheet(
        sheet,
        Some(line),
        settings,
        &mut lines,
        &mut figures,
        &mut walk,
        column,
    )?;
    let at = (line - 1) as usize;
    let t = MeasuredTable {
        lines: &lines[..n],
        figures: &figures,
        at,
    };
    let nested = nest(t, walk[at], settings.raw, column, x, wide);
    Ok(nested)
}

// The same, unless the arguments are refused. A function and no closure: of what a closure given to `and_then` leaves in the lent buffers nothing is
// known after it.
#[tactic(auto, unfolding(arguments::specs::inner::Asked::verdict_in))]
pub fn find_nested(
    sheet: &[u8],
    line: u32,
    asked: Result<Settings, Refusal>,
    column: &mut [u32],
    x: &mut [u32],
    wide: &mut [u32],
) -> Result<Option<Nested>, Refusal>
    requires { verdict_in asked ≡ Ok tt → OutCapacity column.old x.old wide.old }
    ensures { MatchResult asked
        (λ g. NestFound (walked_checks (Some line) sheet.now g.wrap g.raw g.width g.overflow) sheet.now line g.wrap g.raw g.width result
        column.new x.new wide.new)
        (λ why. result ≡ Err why) }
{
    let settings = asked?;
    nest_sheet(sheet, line, settings, column, x, wide)
}

// The call `joined_layout`: the joined grid of two tables of a sheet laid out. The whole sheet is measured, since the cells of both tables are asked.
// wrap, raw and width are a parameter each, as the C interface hands them over.
ghost use Rattle.std.specs.Prelude.{◌≡◌, MatchResult, Ok, Err};
ghost use Rattle.table_layout.specs.inner.Asked.{OutCapacity};
ghost use Rattle.arguments.specs.inner.Asked.{verdict_in};
ghost use Rattle.call_joined.specs.Joined.{two_checks, JoinedLayoutAnswer};
ghost use Rattle.call_joined.specs.inner.Found.{JoinedLayoutFound};

use answers::Layout;
use arguments::Settings;
use call_layout::read::answer_of;
use common::{MAX_ENTRIES, MAX_LINES, Refusal};
use joined_tables::MeasuredTables;

// The layout of the tables in two lines, joined. `column` is scratch until it is written.
fn layout_of(
    sheet: &[u8],
    left: u32,
    right: u32,
    settings: Settings,
    column: &mut [u32],
    x: &mut [u32],
    wide: &mut [u32],
) -> Result<Layout, Refusal>
    requires { OutCapacity column.old x.old wide.old }
    ensures { JoinedLayoutFound (two_checks sheet.now left right) sheet.now left right settings.wrap settings.raw settings.width result
        column.new x.new wide.new }
{
    let mut lines = [records::NO_NODE; MAX_LINES];
    let mut figures = [estimates::NONE; MAX_LINES];
    let mut entries = [records::NO_ENTRY; MAX_ENTRIES];
    let mut rows = [records::NO_ROW; MAX_LINES];
    let n = sheet_load::open_two(sheet, left, right, &mut lines, column)?;
    let lines = &lines[..n];
    let wrap = settings.wrap;
    estimates::measure(wrap, lines, &mut figures, column, &mut entries, &mut rows);
    let t = MeasuredTables {
        lines,
        figures: &figures,
        left: (left - 1) as usize,
        right: (right - 1) as usize,
    };
    let laid = joined_tables::lay_out(
        t,
        settings.raw,
        settings.width,
        &mut entries,
        &mut rows,
        column,
        x,
        wide,
    );
    let a = laid.map_err(|why| why.at(left))?;
    Ok(answer_of(a))
}

// What is found in the sheet, unless the arguments are refused.
#[tactic(auto, unfolding(arguments::specs::inner::Asked::verdict_in))]
fn find_layout(
    sheet: &[u8],
    left: u32,
    right: u32,
    asked: Result<Settings, Refusal>,
    column: &mut [u32],
    x: &mut [u32],
    wide: &mut [u32],
) -> Result<Layout, Refusal>
    requires { verdict_in asked ≡ Ok tt → OutCapacity column.old x.old wide.old }
    ensures { MatchResult asked
        (λ g. JoinedLayoutFound (two_checks sheet.now left right) sheet.now left right g.wrap g.raw g.width result column.new x.new wide.new)
        (λ why. result ≡ Err why) }
{
    let settings = asked?;
    layout_of(sheet, left, right, settings, column, x, wide)
}

// The layout of the tables in two lines, joined: the width of each column, and the place and the width of each entry.
pub fn joined_layout(
    sheet: &[u8],
    left: u32,
    right: u32,
    wrap: u32,
    raw: u32,
    width: u32,
    column: &mut [u32],
    x: &mut [u32],
    wide: &mut [u32],
) -> Result<Layout, Refusal>
    ensures { JoinedLayoutAnswer sheet.now left right wrap raw width
        column.old x.old wide.old result column.new x.new wide.new }
{
    let asked = Settings::of_layout(wrap, raw, width, column.len(), x.len(), wide.len());
    let found = find_layout(sheet, left, right, asked, column, x, wide);
    let n = found.map_or(0, |layout| layout.columns as usize);
    let m = found.map_or(0, |layout| layout.entries as usize);
    common::zero_rest(column, n);
    common::zero_rest(x, m);
    common::zero_rest(wide, m);
    found
}

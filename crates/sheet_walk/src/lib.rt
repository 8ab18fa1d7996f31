// A sheet opened, measured and walked.
// lines and figures are two slices: both are written, and nothing is known of them before. `line_bound` goes on with what is lent.
#![tactic(auto)]

ghost use Rattle.std.specs.Prelude.{◌≤◌, length};
ghost use Rattle.common.specs.Limits.{max_position};
ghost use Rattle.sheet.specs.inner.Steps.{line_bound};
ghost use Rattle.width_walk.specs.inner.Steps as steps;
ghost use Rattle.sheet_walk.specs.inner.Found.{OpenMeasuredPost, WalkSheetPost};

use arguments::Settings;
use common::{MAX_ENTRIES, MAX_LINES, MAX_POSITION, Refusal};
use records::NodeRecord;
use text::Estimate;
use width_walk::{Measured, Scratch};

// Opens and measures a sheet. The last slice is scratch.
// The arrays are declared here: no function can hand out slices of its own.
fn open_measured(
    sheet: &[u8],
    asked: Option<u32>,
    wrap: u32,
    lines: &mut [NodeRecord],
    figures: &mut [Estimate],
    leasts: &mut [u32],
) -> Result<usize, Refusal>
    requires sheet_bound { line_bound sheet.now ≤ length lines.old }
    requires figures_in_bounds { line_bound sheet.now ≤ length figures.old }
    requires max_position_in_bounds { max_position ≤ length leasts.old }
    ensures { OpenMeasuredPost asked sheet.now wrap result lines.new figures.new }
{
    let mut entries = [records::NO_ENTRY; MAX_ENTRIES];
    let mut rows = [records::NO_ROW; MAX_LINES];
    sheet_load::measuring::measure_sheet(
        sheet,
        asked,
        wrap,
        lines,
        figures,
        leasts,
        &mut entries,
        &mut rows,
    )
}

// Walks the lines of a measured sheet. All tables are laid out in the same arrays.
// The arrays are declared here: no function can hand out slices of its own.
fn walk_lines(m: Measured<'_>, settings: Settings, walk: &mut [Option<u32>]) -> Result<(), Refusal>
    requires { length m.lines.now ≤ length walk.old }
    ensures { steps.Walked m.entry.lines.now m.entry.figures.now settings.raw settings.width settings.overflow result walk.new }
{
    let mut entries = [records::NO_ENTRY; MAX_ENTRIES];
    let mut rows = [records::NO_ROW; MAX_LINES];
    let mut column = [0u32; MAX_POSITION];
    let mut x = [0u32; MAX_ENTRIES];
    let mut wide = [0u32; MAX_ENTRIES];
    let mut s = Scratch {
        entries: &mut entries,
        rows: &mut rows,
        column: &mut column,
        x: &mut x,
        wide: &mut wide,
    };
    width_walk::walk(
        m,
        settings.raw,
        settings.width,
        settings.overflow,
        walk,
        &mut s,
    )
}

// Opens, measures and walks a sheet. The last slice is scratch.
pub fn walk_sheet(
    sheet: &[u8],
    asked: Option<u32>,
    settings: Settings,
    lines: &mut [NodeRecord],
    figures: &mut [Estimate],
    walk: &mut [Option<u32>],
    leasts: &mut [u32],
) -> Result<usize, Refusal>
    requires sheet_bound { line_bound sheet.now ≤ length lines.old }
    requires figures_in_bounds { line_bound sheet.now ≤ length figures.old }
    requires places_in_bounds { line_bound sheet.now ≤ length walk.old }
    requires max_position_in_bounds { max_position ≤ length leasts.old }
    ensures { WalkSheetPost asked sheet.now settings.wrap settings.raw settings.width settings.overflow result lines.new figures.new walk.new }
{
    let n = open_measured(sheet, asked, settings.wrap, lines, figures, leasts)?;
    let m = Measured {
        lines: &lines[..n],
        figures,
    };
    walk_lines(m, settings, walk)?;
    Ok(n)
}

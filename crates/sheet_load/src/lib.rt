// A sheet opened: it is read, and every table of it is checked. All calls begin with this.
// That a slice has room for the lines of a sheet, `line_bound`, is asked where it is lent, and goes on with it (docs/DESIGN-PASS.md).
// `as` where a line or a number of line feeds becomes a `usize`, for which there is no `From`.
#![tactic(auto)]

pub mod measuring; // measuring.rt: the lines measured too

ghost use Rattle.std.specs.Prelude.{◌≡◌, true, ◌≤◌, length, Some};
ghost use Rattle.sheet.specs.inner.Steps.{line_bound};
ghost use Rattle.sheet.specs.inner.Reading.{Reads};
ghost use Rattle.sheet_load.specs.Opening.{nodes_of, is_table};
ghost use Rattle.sheet_load.specs.inner.Opened.{asks_no_table, deciding, OpenLinesPre, OpenLinesPost, OpenSheetPost};

use common::{MAX_BYTES, MAX_LINES, Reason, Refusal};
use kinds::Kind;
use records::NodeRecord;

// For how many lines the arrays are that a call works in, but for the longest. It clears them, and for a short sheet short ones do: with long ones a
// table of two cells would take as long as one of a hundred. They are for speed alone.
pub const FEW_LINES: usize = 128;

pub const SMALL_LINES: usize = 512;

pub const MANY_LINES: usize = 2048;

// For how many lines arrays do for a sheet.
pub fn most_lines(sheet: &[u8]) -> usize
    ensures { line_bound sheet.now ≤ result }
{
    if sheet.len() > MAX_BYTES {
        return MAX_LINES;
    }
    sheet::front::feeds_of(sheet) as usize
}

// Whether a line is a table: record k is of line k + 1.
fn is_table(lines: &[NodeRecord], line: u32) -> bool
    ensures { result ≡ is_table lines.now line }
{
    line.checked_sub(1)
        .and_then(|at| lines.get(at as usize))
        .is_some_and(|here| here.kind == Kind::Table)
}

// Whether a line is asked for that is no table.
#[tactic(auto, unfolding(crate::specs::inner::Opened::asks_no_table))]
fn asks_no_table(asked: Option<u32>, lines: &[NodeRecord]) -> bool
    ensures { result ≡ asks_no_table asked lines.now }
{
    asked.is_some_and(|line| !is_table(lines, line))
}

// Reads a sheet.
pub fn read_sheet(bytes: &[u8], lines: &mut [NodeRecord]) -> Result<usize, Refusal>
    requires { line_bound bytes.now ≤ length lines.old }
    ensures { Reads bytes.now result lines.new }
{
    let classes = text::bytes::Classes::new();
    sheet::read(&classes, bytes, lines)
}

// What is asked of the lines after reading: 10 for a line that is no table, then every table in turn. The last slice is scratch.
fn open_lines(
    asked: Option<u32>,
    lines: &[NodeRecord],
    scratch: &mut [u32],
) -> Result<usize, Refusal>
    requires { OpenLinesPre lines.now scratch.old }
    ensures { OpenLinesPost asked lines.now result }
{
    if asks_no_table(asked, lines) {
        return Err(Reason::NoTable.at(0));
    }
    grid_check::check_tables(lines, scratch)?;
    Ok(lines.len())
}

// Opens a sheet: reads it, asks for the line if a call asks for one, and checks its tables. Record k is then of line k + 1. The last slice is scratch: a
// place for each line, of which nothing is cleared.
pub fn open_sheet(
    bytes: &[u8],
    asked: Option<u32>,
    lines: &mut [NodeRecord],
    scratch: &mut [u32],
) -> Result<usize, Refusal>
    requires bytes_bound { line_bound bytes.now ≤ length lines.old }
    requires bytes_in_bounds { line_bound bytes.now ≤ length scratch.old }
    ensures { OpenSheetPost asked bytes.now result lines.new }
{
    let n = read_sheet(bytes, lines)?;
    open_lines(asked, &lines[..n], scratch)
}

// Of two lines that must both be tables, the one that decides.
fn deciding(lines: &[NodeRecord], left: u32, right: u32) -> u32
    ensures { result ≡ deciding lines.now left right }
{
    if is_table(lines, left) { right } else { left }
}

// Opens a sheet for the tables in two lines, which may be the same: 10 if either is no table, before every table is checked.
pub fn open_two(
    bytes: &[u8],
    left: u32,
    right: u32,
    lines: &mut [NodeRecord],
    scratch: &mut [u32],
) -> Result<usize, Refusal>
    requires bytes_bound { line_bound bytes.now ≤ length lines.old }
    requires bytes_in_bounds { line_bound bytes.now ≤ length scratch.old }
    ensures { OpenSheetPost (Some (deciding (nodes_of bytes.now) left right)) bytes.now result lines.new }
{
    let n = read_sheet(bytes, lines)?;
    let asked = deciding(&lines[..n], left, right);
    open_lines(Some(asked), &lines[..n], scratch)
}

// The sixteen calls for C and Rust: numbers, lent slices and `#[repr(C)]` structs of numbers alone. A slice crosses as a pointer and a length.
// The settings and the buffers are a parameter each: C hands them over so, and the calls that these make take them so.
#![tactic(auto)]

ghost use Rattle.std.specs.Prelude.{◌≡◌, length};
ghost use Rattle.common.specs.Refusals.{verdict_of};
ghost use Rattle.text.specs.Text.{measure_of};
ghost use Rattle.sheet_figures.specs.Calls.{check_checks};
ghost use Rattle.call_estimates.specs.Estimates.{estimated_of, for_lines, EstimatesBuffers};
ghost use Rattle.call_grid.specs.Grid.{gridded_of, for_entries, for_rows, GridBuffers};
ghost use Rattle.call_layout.specs.Layout.{laid_out_of, for_columns, for_places, LayoutBuffers};
ghost use Rattle.call_missing.specs.Missing.{explained_of, for_one, MissingLeft};
ghost use Rattle.call_preview.specs.Preview.{pointed_of, listed_of, for_one as for_listed, WithinLeft, joined_of};
ghost use Rattle.call_walk.specs.Walks.{walked_of, for_walk, WalkLeft};
ghost use Rattle.call_nested.specs.Nested.{nested_of, NestedLeft};
ghost use Rattle.call_spoken.specs.Spoken.{place_of};
ghost use Rattle.call_joined.specs.Joined.{joined_grid_of, JoinedGridBuffers, joined_layout_of, JoinedLayoutBuffers, joined_place_of};
ghost use Rattle.call_window.specs.Window.{window_of, for_report, WindowBuffers};
ghost use Rattle.c_results.specs.Answers.{check_result, as_img, measure_result, estimates_result, grid_result, layout_result, missing_result, at_result, within_result, joining_result, walk_result, nested_result, window_result, spoken_result};

use c_results::{
    AtResult, CheckResult, EstimatesResult, GridResult, JoiningResult, LayoutResult, MeasureResult,
    MissingResult, NestedResult, SpokenResult, WalkResult, WindowResult, WithinResult,
};

// Whether a sheet is accepted.
#[unsafe(no_mangle)]
pub extern "C" fn tables_check(sheet: &[u8]) -> CheckResult
    ensures { result ≡ check_result (verdict_of (check_checks sheet.now)) }
{
    CheckResult::from(call_estimates::check(sheet))
}

// The figures of one text, as text or svg, or as img.
#[unsafe(no_mangle)]
pub extern "C" fn tables_measure(text: &[u8], wrap: u32, img: u32) -> MeasureResult
    ensures { result ≡ measure_result (measure_of text.now wrap (as_img img)) }
{
    MeasureResult::from(text::measure(text, wrap, c_results::as_img(img)))
}

// The size, the least width and the prefix of every line of a sheet.
#[unsafe(no_mangle)]
pub extern "C" fn tables_estimates(
    sheet: &[u8],
    wrap: u32,
    size: &mut [u32],
    least: &mut [u32],
    prefix: &mut [u32],
) -> EstimatesResult
    ensures value { result ≡ estimates_result (estimated_of sheet.now wrap (for_lines size.old least.old prefix.old)) }
    ensures estimates_buffers { EstimatesBuffers sheet.now wrap size.old least.old prefix.old
        size.new least.new prefix.new }
{
    EstimatesResult::from(call_estimates::estimates(sheet, wrap, size, least, prefix))
}

// The grid of the table in a line.
#[unsafe(no_mangle)]
pub extern "C" fn tables_grid(
    sheet: &[u8],
    line: u32,
    cell: &mut [u32],
    first: &mut [u32],
    span: &mut [u32],
    row: &mut [u32],
    row_end: &mut [u32],
) -> GridResult
    ensures value { result ≡ grid_result (gridded_of sheet.now line
        (for_entries cell.old first.old span.old) (for_rows row.old row_end.old)) }
    ensures grid_buffers { GridBuffers sheet.now line cell.old first.old span.old row.old row_end.old
        cell.new first.new span.new row.new row_end.new }
{
    GridResult::from(call_grid::grid(sheet, line, cell, first, span, row, row_end))
}

// The layout of the table in a line.
#[unsafe(no_mangle)]
pub extern "C" fn tables_layout(
    sheet: &[u8],
    line: u32,
    wrap: u32,
    raw: u32,
    width: u32,
    column: &mut [u32],
    x: &mut [u32],
    wide: &mut [u32],
) -> LayoutResult
    ensures value { result ≡ layout_result (laid_out_of sheet.now line wrap raw width (for_columns column.old) (for_places x.old wide.old)) }
    ensures layout_buffers { LayoutBuffers sheet.now line wrap raw width column.old x.old wide.old
        column.new x.new wide.new }
{
    LayoutResult::from(call_layout::layout(sheet, line, wrap, raw, width, column, x, wide))
}

// The missing entries of the table in a line, and the causes of its columns.
#[unsafe(no_mangle)]
pub extern "C" fn tables_missing(
    sheet: &[u8],
    line: u32,
    wrap: u32,
    raw: u32,
    width: u32,
    entry: &mut [u32],
    cause: &mut [u32],
) -> MissingResult
    ensures value { result ≡ missing_result (explained_of sheet.now line wrap raw width (for_one entry.old) (for_one cause.old)) }
    ensures missing_left { MissingLeft sheet.now line wrap raw width entry.old cause.old
        entry.new cause.new }
{
    MissingResult::from(call_missing::missing(sheet, line, wrap, raw, width, entry, cause))
}

// What lies at a character column of a row.
#[unsafe(no_mangle)]
pub extern "C" fn tables_at(
    sheet: &[u8],
    line: u32,
    wrap: u32,
    raw: u32,
    width: u32,
    row: u32,
    x: u32,
) -> AtResult
    ensures { result ≡ at_result (pointed_of sheet.now line wrap raw width row x) }
{
    AtResult::from(call_preview::at(sheet, line, wrap, raw, width, row, x))
}

// The printed cells of a row that lie wholly in a stretch of character columns.
#[unsafe(no_mangle)]
pub extern "C" fn tables_within(
    sheet: &[u8],
    line: u32,
    wrap: u32,
    raw: u32,
    width: u32,
    row: u32,
    from: u32,
    to: u32,
    entry: &mut [u32],
) -> WithinResult
    ensures value { result ≡ within_result (listed_of sheet.now line wrap raw width row from to (for_listed entry.old)) }
    ensures within_left { WithinLeft sheet.now line wrap raw width row from to entry.old entry.new }
{
    WithinResult::from(call_preview::within(sheet, line, wrap, raw, width, row, from, to, entry))
}

// The joining character at a character column between a row and the next.
#[unsafe(no_mangle)]
pub extern "C" fn tables_joining(
    sheet: &[u8],
    line: u32,
    wrap: u32,
    raw: u32,
    width: u32,
    row: u32,
    x: u32,
) -> JoiningResult
    ensures { result ≡ joining_result (joined_of sheet.now line wrap raw width row x) }
{
    JoiningResult::from(call_preview::joining(sheet, line, wrap, raw, width, row, x))
}

// The widths of a sheet's lines, from the first line's down: whether each has one, and which.
#[unsafe(no_mangle)]
pub extern "C" fn tables_walk(
    sheet: &[u8],
    wrap: u32,
    raw: u32,
    width: u32,
    overflow: u32,
    given: &mut [u32],
    wide: &mut [u32],
) -> WalkResult
    ensures value { result ≡ walk_result (walked_of sheet.now wrap raw width overflow (for_walk given.old wide.old)) }
    ensures walk_left { WalkLeft sheet.now wrap raw width overflow given.old wide.old
        given.new wide.new }
{
    WalkResult::from(call_walk::walk(sheet, wrap, raw, width, overflow, given, wide))
}

// The layout of the table in a line, at the width that the walk gives it.
#[unsafe(no_mangle)]
pub extern "C" fn tables_nested(
    sheet: &[u8],
    line: u32,
    wrap: u32,
    raw: u32,
    width: u32,
    overflow: u32,
    column: &mut [u32],
    x: &mut [u32],
    wide: &mut [u32],
) -> NestedResult
    ensures value { result ≡ nested_result (nested_of sheet.now line wrap raw width overflow (for_columns column.old) (for_places x.old wide.old)) }
    ensures nested_left { NestedLeft sheet.now line wrap raw width overflow column.old x.old wide.old
        column.new x.new wide.new }
{
    NestedResult::from(call_nested::nested(
        sheet, line, wrap, raw, width, overflow, column, x, wide,
    ))
}

// The way, the width and how many entries are missing, of the table in a line at each of a list of widths.
#[unsafe(no_mangle)]
pub extern "C" fn tables_window(
    sheet: &[u8],
    line: u32,
    wrap: u32,
    raw: u32,
    widths: &[u32],
    way: &mut [u32],
    wide: &mut [u32],
    missing: &mut [u32],
) -> WindowResult
    ensures value { result ≡ window_result (window_of sheet.now line wrap raw widths.now (for_report way.old wide.old missing.old)) }
    ensures window_buffers { WindowBuffers sheet.now line wrap raw widths.now way.old wide.old missing.old
        way.new wide.new missing.new }
{
    WindowResult::from(call_window::window(sheet, line, wrap, raw, widths, way, wide, missing))
}

// Where the text stands that is spoken at an entry of the table in a line: in the sheet, or it is the whole wording.
#[unsafe(no_mangle)]
pub extern "C" fn tables_spoken(sheet: &[u8], line: u32, entry: u32, wording: &[u8]) -> SpokenResult
    ensures { result ≡ spoken_result (place_of sheet.now line entry) (length wording.now) }
{
    SpokenResult::of(call_spoken::spoken_place(sheet, line, entry), wording.len())
}

// The grid of the tables in two lines, side by side.
#[unsafe(no_mangle)]
pub extern "C" fn tables_joined_grid(
    sheet: &[u8],
    left: u32,
    right: u32,
    cell: &mut [u32],
    first: &mut [u32],
    span: &mut [u32],
    row: &mut [u32],
    row_end: &mut [u32],
) -> GridResult
    ensures value { result ≡ grid_result (joined_grid_of sheet.now left right
        (for_entries cell.old first.old span.old) (for_rows row.old row_end.old)) }
    ensures joined_grid_buffers { JoinedGridBuffers sheet.now left right
        cell.old first.old span.old row.old row_end.old cell.new first.new span.new row.new row_end.new }
{
    GridResult::from(call_joined::joined_grid(sheet, left, right, cell, first, span, row, row_end))
}

// The layout of the tables in two lines, side by side.
#[unsafe(no_mangle)]
pub extern "C" fn tables_joined_layout(
    sheet: &[u8],
    left: u32,
    right: u32,
    wrap: u32,
    raw: u32,
    width: u32,
    column: &mut [u32],
    x: &mut [u32],
    wide: &mut [u32],
) -> LayoutResult
    ensures value { result ≡ layout_result (joined_layout_of sheet.now left right wrap raw width (for_columns column.old) (for_places x.old wide.old)) }
    ensures joined_layout_buffers { JoinedLayoutBuffers sheet.now left right wrap raw width column.old x.old wide.old
        column.new x.new wide.new }
{
    LayoutResult::from(call_joined::joined_layout(
        sheet, left, right, wrap, raw, width, column, x, wide,
    ))
}

// Where the text stands that is spoken at an entry of the joined grid of the tables in two lines: in the sheet, or it is the whole wording.
#[unsafe(no_mangle)]
pub extern "C" fn tables_joined_spoken(
    sheet: &[u8],
    left: u32,
    right: u32,
    entry: u32,
    wording: &[u8],
) -> SpokenResult
    ensures { result ≡ spoken_result (joined_place_of sheet.now left right entry) (length wording.now) }
{
    SpokenResult::of(
        call_joined::joined_place(sheet, left, right, entry),
        wording.len(),
    )
}

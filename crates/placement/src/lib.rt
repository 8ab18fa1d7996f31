// Where each entry of a table stands, and how wide it is: sideways `into_cells` of the Rust, down the cells stacked on the page. x and width go to two
// slices, and not to one of pairs, since the C interface lends them so.
// Entries and rows are two slices in `place`: the struct of both is `grid_build::Records`, on which this crate does not stand.
// `as` where a row's end becomes a `usize`, for which there is no `From`.
#![tactic(auto)]

ghost use Rattle.std.specs.Prelude.{◌≡◌, map, ◌+◌, ◌≤◌, length, replicate};
ghost use Rattle.common.specs.Limits.{max_size};
ghost use Rattle.common.specs.Lists.{sum};
ghost use Rattle.columns.specs.inner.Boxes.{rows_by};
ghost use Rattle.placement.specs.Place.{place_side, place_row, place_rows};
ghost use Rattle.placement.specs.inner.Rows.{own, next, bare_boxes, PlaceSideRowPre, PlaceRowPre, PlacePre, Written};
ghost use Rattle.records.specs.inner.Figures.{row_end};

use records::{Entry, RowEnd};

// How wide an entry is sideways whose columns take `total`: the gaps between them are its own too; where they take nothing it is missing.
fn own_width(total: u32, span: u32) -> u32
    requires { total + span ≤ max_size + 1 }
    ensures { result ≡ own total span }
{
    if total == 0 { 0 } else { total + span - 1 }
}

// Where the next entry starts: a missing one takes no width, another its width and one character column more.
fn next_start(x: u32, total: u32, span: u32) -> u32
    requires { x + (total + span) ≤ max_size + 1 }
    ensures { result ≡ next x total span }
{
    if total == 0 { x } else { x + (total + span) }
}

// A row sideways: the loop of `into_cells` over a row's cells, each placed by the sum of its columns.
// Written by index: of what an adapter of `iter_mut` wrote the language knows nothing.
pub fn place_side_row(entries: &[Entry], ws: &[u32], x: &mut [u32], wide: &mut [u32])
    requires { PlaceSideRowPre entries.now ws.now x.old wide.old }
    ensures { Written (place_side ws.now 0 (bare_boxes entries.now)) x.new wide.new }
{
    let mut start: u32 = 0;
    for (i, e) in entries.iter().enumerate() {
        let total = common::total(&ws[e.columns()]);
        x[i] = start;
        wide[i] = own_width(total, e.span);
        start = next_start(start, total, e.span);
    }
}

// A row down: the cells are stacked, so each starts at 0 and is as wide as the page.
fn place_down_row(width: u32, x: &mut [u32], wide: &mut [u32])
    ensures x_after { x.new ≡ replicate (length x.old) 0 }
    ensures wide_after { wide.new ≡ replicate (length wide.old) width }
{
    x.fill(0);
    wide.fill(width);
}

// A row the way the table is laid out.
fn place_row(
    way: answers::Way,
    entries: &[Entry],
    ws: &[u32],
    width: u32,
    x: &mut [u32],
    wide: &mut [u32],
)
    requires { PlaceRowPre way entries.now ws.now x.old wide.old }
    ensures { Written (place_row way ws.now width (bare_boxes entries.now)) x.new wide.new }
{
    match way {
        answers::Way::Sideways => place_side_row(entries, ws, x, wide),
        answers::Way::Down => place_down_row(width, x, wide),
    }
}

// Every entry of a table, row by row, each row from x = 0 on.
pub fn place(
    way: answers::Way,
    entries: &[Entry],
    rows: &[RowEnd],
    ws: &[u32],
    width: u32,
    x: &mut [u32],
    wide: &mut [u32],
)
    requires { PlacePre way entries.now rows.now ws.now x.old wide.old }
    ensures { Written (place_rows way ws.now width (rows_by 0 (map row_end rows.now) (bare_boxes entries.now))) x.new wide.new }
{
    let mut from: usize = 0;
    for row in rows {
        let to = row.end as usize;
        place_row(
            way,
            &entries[from..to],
            ws,
            width,
            &mut x[from..to],
            &mut wide[from..to],
        );
        from = to;
    }
}

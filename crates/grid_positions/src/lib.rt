// All rows of a table by positions, as `RenderTable::new` makes them, each with the cells that hang into it.
// rows and entries are two slices: of a struct of both each function would have to promise that they stay as long as they were.
// Entries are filled from the front of their slice, beside a count: a `Vec` needs a heap.
// `as` where a row's end becomes a `usize`, or a count a number of 32 bits: there is no `From`, and a `TryFrom` would never fail.
#![tactic(auto)]

ghost use Rattle.std.specs.Prelude.{◌≡◌, List, ℕ};
ghost use Rattle.resolved_rows.specs.inner.Held.{lines_of, spans_of, rowspans_of};
ghost use Rattle.records.specs.inner.Figures.{row_lines_of, row_ends_of, entry_cells_of, entry_spans_of};
ghost use Rattle.grid_row.specs.inner.Overhangs.{lefts_of, ats_of, wides_of, lefts_in, ats_in, wides_in};
ghost use Rattle.grid_positions.specs.inner.Slices.{row_at, OneRowPost, OneRowPre, table_of, PositionRowsPre, PositionRowsPost};

use grid_row::Overhang;
use records::{Entry, RowEnd};

// How many rows and entries there are.
#[derive(Clone, Copy)]
pub struct Positions {
    pub rows: usize,
    pub entries: usize,
}

// One row: its cells are those from `first` up to `end`, the first k of each third of `overhang` hang into it, and its entries go in from place n on.
// How many hang on. What hangs stands in three number slices, which is the form that the project asks for. The slices are cut to the row here: a caller
// that cut them would do what this function is for.
#[tactic(auto, using(crate::proofs::OverAt::cells_long, crate::proofs::OverAt::entries_long, crate::proofs::Thirds::lefts_long))]
fn one_row(
    cells: &[u32],
    first: usize,
    end: usize,
    overhang: &[u32],
    k: usize,
    entries: &mut [Entry],
    n: usize,
    next: &mut [Overhang],
) -> usize
    requires { OneRowPre (lines_of cells.now) (spans_of cells.now) (rowspans_of cells.now) first end (lefts_in overhang.now) (ats_in overhang.now) (wides_in overhang.now) k
        (entry_cells_of entries.old) (entry_spans_of entries.old) n (lefts_of next.old) (ats_of next.old) (wides_of next.old) }
    ensures { OneRowPost n (row_at (lines_of cells.now) (spans_of cells.now) (rowspans_of cells.now) first end (lefts_in overhang.now) (ats_in overhang.now) (wides_in overhang.now) k) result
        (entry_cells_of entries.old) (entry_spans_of entries.old) (lefts_of next.old) (ats_of next.old) (wides_of next.old)
        (entry_cells_of entries.new) (entry_spans_of entries.new) (lefts_of next.new) (ats_of next.new) (wides_of next.new) }
{
    let third = overhang.len() / 3;
    grid_row::merge_row(
        &cells[3 * first..3 * end],
        &overhang[..k],
        &overhang[third..third + k],
        &overhang[2 * third..2 * third + k],
        &mut entries[n..],
        next,
    )
}

// All rows of a table by positions, one after the other, each with what hangs into it: what `RenderTable::new` makes of the rows before it
// counts columns. All entries go one after the other into the first records, with their spans in positions. A row's record says how many cells
// there are up to its end, and then how many entries. The table is sound: no row ends past 4,096, and there is a place for each of its at most
// 8,192 entries.
pub fn position_rows(
    cells: &[u32],
    rows: &mut [RowEnd],
    entries: &mut [Entry],
    overhang: &mut [u32],
    next: &mut [Overhang],
) -> Positions
    requires { PositionRowsPre (lines_of cells.now) (spans_of cells.now) (rowspans_of cells.now) (row_ends_of rows.old) (entry_cells_of entries.old) (entry_spans_of entries.old) (row_ends_of rows.old)
        (lefts_in overhang.old) (ats_in overhang.old) (wides_in overhang.old) (lefts_of next.old) (ats_of next.old) (wides_of next.old) }
    ensures made { (row_lines : List ℕ) →
        PositionRowsPost (table_of (lines_of cells.now) (spans_of cells.now) (rowspans_of cells.now) row_lines 0 (row_ends_of rows.old)) result
        (entry_cells_of entries.old) (entry_spans_of entries.old) (row_ends_of rows.old)
        (entry_cells_of entries.new) (entry_spans_of entries.new) (row_ends_of rows.new) }
    ensures lined { row_lines_of rows.new ≡ row_lines_of rows.old }
{
    let mut first: usize = 0;
    let mut n: usize = 0;
    let mut k: usize = 0;
    for row in rows.iter_mut() {
        let end = row.end as usize;
        let hangs = one_row(cells, first, end, overhang, k, entries, n, next);
        grid_row::carry(&next[..hangs], overhang);
        n += end - first + k;
        row.end = n as u32;
        k = hangs;
        first = end;
    }
    Positions {
        rows: rows.len(),
        entries: n,
    }
}

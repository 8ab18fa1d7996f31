// The grid of a table: its cells and fillers in columns, as `RenderTable::new` makes them. A table of which one is made is sound: no row ends past 4,096, and there are at most
// 8,192 entries.
// entries and rows are two slices: rows are read where entries are written, or both are lent; of a struct of them each function would have to
// promise that they stay as long as they were. The place of the table stands beside the lines, as `table_rows` has the two.
// `as` where a row's end becomes a `usize`, for which there is no `From`.
#![tactic(auto)]

ghost use Rattle.std.specs.Prelude.{◌≡◌, true, ◌-◌, ◌<◌, length};
ghost use Rattle.column_edges.specs.inner.Edges.{is_edge, rows_from, RowsFit};
ghost use Rattle.records.specs.inner.Figures.{row_lines_of, row_ends_of, entry_cells_of, entry_spans_of};
ghost use Rattle.resolved_rows.specs.Listed.{table_rows};
ghost use Rattle.grid_positions.specs.Positions.{all_rows, entry_count};
ghost use Rattle.grid.specs.inner.Numbering.{RowsNumbered};
ghost use Rattle.grid.specs.Judging.{Lined};
ghost use Rattle.grid.specs.Facts.{Sound};
ghost use Rattle.grid.specs.inner.Placing.{edge_of_rows, PlacedGridPre, PlacedGridPost, PlaceTablePost, PlaceTablePre};

use column_edges::Numbers;
use grid_positions::Positions;
use grid_row::Overhang;
use records::{Entry, NodeRecord, RowEnd};

// All rows' entries in columns, in the place of the same entries in positions; a row's record says how many entries there are up to and including
// it. The columns of the longest row, or that an entry ends at no edge.
fn number_rows(numbers: &Numbers, rows: &[RowEnd], entries: &mut [Entry]) -> Option<usize>
    requires words_value { is_edge numbers.now.words 0 ≡ true }
    requires rows_fit { RowsFit 0 (row_ends_of rows.now) (entry_spans_of entries.old) }
    ensures { RowsNumbered (is_edge numbers.now.words) (rows_from 0 (row_ends_of rows.now) (entry_spans_of entries.old)) (entry_cells_of entries.old) result entries.new }
{
    let mut columns: usize = 0;
    let mut start: usize = 0;
    for row in rows {
        let end = row.end as usize;
        let n = numbers.renumber(&mut entries[start..end])?;
        columns = columns.max(n);
        start = end;
    }
    Some(columns)
}

// The same by the edges of these rows.
fn number_table(rows: &[RowEnd], entries: &mut [Entry]) -> Option<usize>
    requires { RowsFit 0 (row_ends_of rows.now) (entry_spans_of entries.old) }
    ensures { RowsNumbered (edge_of_rows (rows_from 0 (row_ends_of rows.now) (entry_spans_of entries.old))) (rows_from 0 (row_ends_of rows.now) (entry_spans_of entries.old)) (entry_cells_of entries.old) result entries.new }
{
    let mut start = column_edges::Edges::new();
    start.insert(0);
    let numbers = column_edges::mark_rows(start, entries, rows);
    number_rows(&numbers, rows, entries)
}

// The grid of rows by positions, in the place of their entries: how many columns it has. That an entry ends at no edge, refusal 7, is never found:
// the edges are those of all rows.
#[tactic(auto, using(crate::proofs::GridLists::rows_long, crate::proofs::GridLists::spans_long))]
pub fn placed_grid(placed: Positions, rows: &[RowEnd], entries: &mut [Entry]) -> usize
    requires { PlacedGridPre placed.rows placed.entries (entry_spans_of entries.old) (row_ends_of rows.now) }
    ensures { PlacedGridPost placed.rows placed.entries (entry_spans_of entries.old) (entry_cells_of entries.old) (row_ends_of rows.now) result entries.new }
{
    number_table(&rows[..placed.rows], &mut entries[..placed.entries]).unwrap_or(0)
}

// The rows of the table at the place `at` by positions: a record for each entry, with its line and its span, and one for each row, with its line
// and its end. The slices from cells to next are scratch. The table is sound, and there is a place for each of its entries.
pub fn place_table(
    lines: &[NodeRecord],
    at: usize,
    cells: &mut [u32],
    overhang: &mut [u32],
    next: &mut [Overhang],
    entries: &mut [Entry],
    rows: &mut [RowEnd],
) -> Positions
    requires at_in_bounds { at < length lines.now }
    requires lined { Lined lines.now }
    requires sound { Sound (table_rows lines.now at) }
    requires capacity { PlaceTablePre (length lines.now - at) (entry_count (all_rows (table_rows lines.now at))) cells.old overhang.old next.old entries.old rows.old }
    ensures { PlaceTablePost (table_rows lines.now at) result (entry_spans_of entries.new) (entry_cells_of entries.new) (row_lines_of rows.new) (row_ends_of rows.new) }
{
    let listed = resolved_rows::list_rows(lines, at, cells, rows);
    let n = 3 * listed.cells;
    grid_positions::position_rows(
        &cells[..n],
        &mut rows[..listed.rows],
        entries,
        overhang,
        next,
    )
}

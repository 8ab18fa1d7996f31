// Where a row stands among the entries of its table, by the records of the grid's rows.
ghost use Rattle.std.specs.Prelude.{◌≡◌, List, ◌≤◌, length};
ghost use Rattle.grid.specs.Grid.{GridRow};
ghost use Rattle.row_lookup.specs.Rows.{start_in, goes_down};
ghost use Rattle.row_lookup.specs.inner.Ranges.{HasRows, range_in};

use crate::Span;
use answers::Way;
use common::{Reason, Refusal};
use records::RowEnd;

// Whether the table goes down.
// Named by its definition, `goes_down`.
#[tactic(auto, unfolding(crate::specs::Rows::goes_down))]
fn is_down(way: Way) -> bool
    ensures { result ≡ goes_down way }
{
    matches!(way, Way::Down)
}

// How many entries stand in the first k rows; all of them, if there are fewer rows.
fn entries_before(rows: &[RowEnd], k: usize) -> usize
    ensures { (g : List GridRow) → HasRows rows.now g → result ≡ start_in g k }
{
    let n = k.min(rows.len());
    rows[..n].last().map_or(0, |row| row.end as usize)
}

// A row of the table, unless the table goes down or has no such row.
pub fn row_in(way: Way, rows: &[RowEnd], row: u32) -> Result<Span, Refusal>
    ensures { (g : List GridRow) → HasRows rows.now g → result ≡ range_in way g row }
{
    let k = row as usize;
    if is_down(way) || rows.len() <= k {
        return Err(Reason::NoTable.at(0));
    }
    let first = entries_before(rows, k);
    let end = entries_before(rows, k + 1);
    let next = entries_before(rows, k + 2);
    Ok(Span { first, end, next })
}

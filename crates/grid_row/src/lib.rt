// One row of the grid: what the loop over a row's cells in `RenderTable::new` makes of them and of the cells that hang into the row.
// Entries, and what hangs into the next row, are filled from the front of their slices, beside a count: a `Vec` needs a heap.
// `as` where a position becomes a `usize` or a number of 32 bits: there is no `From`, and a `TryFrom` would never fail.
#![tactic(auto)]

ghost use Rattle.std.specs.Prelude.{◌≡◌, false, suc, ◌+◌, ◌*◌, ◌≤◌, ◌<◌, ◌/◌, length, drop};
ghost use Rattle.common.specs.Limits.{max_position};
ghost use Rattle.resolved_rows.specs.inner.Held.{lines_of, spans_of, rowspans_of};
ghost use Rattle.records.specs.inner.Figures.{entry_cells_of, entry_spans_of};
ghost use Rattle.grid_row.specs.Row.{item, rows_below, items_end};
ghost use Rattle.grid_row.specs.inner.Row.{due_at, row_of, MergeRowPre, PutPost, MergeRowPost};
ghost use Rattle.grid_row.specs.inner.Overhangs.{lefts_of, ats_of, wides_of, overhang_in};
ghost use Rattle.grid_row.specs.inner.Carrying.{CarryPost};

use records::Entry;

// A cell that hangs into a row: the rows that it takes from this one on, the position that it keeps, and its span.
#[derive(Clone, Copy)]
pub struct Overhang {
    pub left: u32,
    pub at: u32,
    pub span: u32,
}

// What stands in an array before it is written.
// No `Default`, which would say that such a cell hangs into a row.
pub const NO_OVERHANG: Overhang = Overhang {
    left: 0,
    at: 0,
    span: 0,
};

// The one at i of those that hang into a row. They stand in three number slices, which is the form that the project asks for.
fn overhang_in(left: &[u32], at: &[u32], wide: &[u32], i: usize) -> Overhang
    requires { (i < length left.now) × (i < length at.now) × (i < length wide.now) }
    ensures { result ≡ overhang_in left.now at.now wide.now i }
{
    Overhang {
        left: left[i],
        at: at[i],
        span: wide[i],
    }
}

// How many rows a cell takes from its own on.
fn rows_taken(rows: u32) -> u32
    ensures { result ≡ suc (rows_below rows) }
{
    rows.max(1)
}

// Whether the hanging one at h goes in now: it is there, and no cell is left or its position is at most the current one.
// The bound is asked by hand: with `get`, the table of 128 cells that hang into 64 rows (curtain:128x64) takes 14 % longer, 95 us for 84.
fn due(at: &[u32], h: usize, pos: usize, last: bool) -> bool
    ensures { result ≡ due_at (drop h at.now) pos last }
{
    h < at.len() && (last || at[h] as usize <= pos)
}

// One entry more, and one more that hangs into the next row if it takes more rows than this one: how many hang then.
// line, rows, at and span are those of the definition's `item`: a struct of them would be made of a cell or of what hangs, and opened here.
fn put(
    entries: &mut [Entry],
    next: &mut [Overhang],
    n: usize,
    k: usize,
    line: u32,
    rows: u32,
    at: u32,
    span: u32,
) -> usize
    requires { (n < length entries.old) × (k < length next.old) }
    ensures { PutPost n k (item line false rows at span) result
        (entry_cells_of entries.old) (entry_spans_of entries.old) (lefts_of next.old) (ats_of next.old) (wides_of next.old)
        (entry_cells_of entries.new) (entry_spans_of entries.new) (lefts_of next.new) (ats_of next.new) (wides_of next.new) }
{
    let e = Entry {
        cell: line,
        first: at,
        span,
    };
    entries[n] = e;
    if rows <= 1 {
        return k;
    }
    let o = Overhang {
        left: rows - 1,
        at,
        span,
    };
    next[k] = o;
    k + 1
}

// A row's entries, and what hangs into the next row, from the row's cells and what hangs into it: how many hang on. One loop takes the place of the
// loops over cells and over what hangs in `RenderTable::new`: each turn puts one entry, whose first column is not known yet: until it is, its
// position stands there, and its span is one of positions. The row ends within position 4,096.
pub fn merge_row(
    cells: &[u32],
    left: &[u32],
    at: &[u32],
    wide: &[u32],
    entries: &mut [Entry],
    next: &mut [Overhang],
) -> usize
    requires at_len { (length at.now ≡ length left.now) × (length wide.now ≡ length left.now) }
    requires row_capacity { MergeRowPre (length (lines_of cells.now) + length left.now) (entry_cells_of entries.old) (entry_spans_of entries.old) (lefts_of next.old) (ats_of next.old) (wides_of next.old) }
    requires wide_bound { items_end (row_of (lines_of cells.now) (spans_of cells.now) (rowspans_of cells.now) left.now at.now wide.now) ≤ max_position }
    ensures { MergeRowPost (row_of (lines_of cells.now) (spans_of cells.now) (rowspans_of cells.now) left.now at.now wide.now) result
        (entry_cells_of entries.old) (entry_spans_of entries.old) (lefts_of next.old) (ats_of next.old) (wides_of next.old)
        (entry_cells_of entries.new) (entry_spans_of entries.new) (lefts_of next.new) (ats_of next.new) (wides_of next.new) }
{
    // The entries put end at pos, and k of them hang on; next are the cell i and the hanging one h.
    let many = cells.len() / 3;
    let mut pos: usize = 0;
    let mut k: usize = 0;
    let mut i: usize = 0;
    let mut h: usize = 0;
    // by places: neither the cells nor those that hang give the turns; entry n is put, of the one or the other
    for n in 0..many + left.len() {
        if due(at, h, pos, i == many) {
            let o = overhang_in(left, at, wide, h);
            k = put(entries, next, n, k, 0, o.left, o.at, o.span);
            pos += o.span as usize;
            h += 1;
        } else {
            let c = resolved_rows::cell_at(cells, i);
            let taken = rows_taken(c.rows);
            k = put(entries, next, n, k, c.line, taken, pos as u32, c.span);
            pos += c.span as usize;
            i += 1;
        }
    }
    k
}

// Those that hang on become those that hang into the next row: in three number slices, which are the thirds of one.
// Written by index: of what an adapter of `iter_mut` wrote the language knows nothing.
pub fn carry(next: &[Overhang], overhang: &mut [u32])
    requires { length next.now ≤ length overhang.old / 3 }
    ensures { CarryPost (lefts_of next.now) (ats_of next.now) (wides_of next.now) overhang.new }
{
    let third = overhang.len() / 3;
    for (i, o) in next.iter().enumerate() {
        overhang[i] = o.left;
        overhang[third + i] = o.at;
        overhang[2 * third + i] = o.span;
    }
}

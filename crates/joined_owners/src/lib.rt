// The cell that a filler of two tables' grids joined side by side continues: the joined records are not needed for it.
// The places of the tables stand beside the lines, as `table_rows` has the two.
#![tactic(auto)]

ghost use Rattle.std.specs.Prelude.{◌≡◌, cond, ◌+◌, ◌≤◌, ◌<◌, length};
ghost use Rattle.common.specs.Limits.{max_entries, max_position};
ghost use Rattle.common.specs.Lists.{All};
ghost use Rattle.resolved_rows.specs.Listed.{table_rows};
ghost use Rattle.grid.specs.Grid.{grid_of, columns_of, entries_of};
ghost use Rattle.owners.specs.Owner.{filler_owner};
ghost use Rattle.grid_join.specs.Joined.{empty_entries, filled, joined};
ghost use Rattle.grid_join.specs.inner.Reading.{row_in, grid_in, Narrow};
ghost use Rattle.grid_join.specs.inner.Parts.{Readable};
ghost use Rattle.joined_owners.specs.inner.Places.{in_row, place, JoinedOwnerPre};

use grid_build::Records;
use records::{Entry, NodeRecord};

// What an entry of the joined grid is: the entry of the left or right grid with this number, an empty one, or none, past the last.
#[derive(Clone, Copy)]
enum Place {
    Left(usize),
    Right(usize),
    Empty,
    Past,
}

// How many entries a left row has, filled up to so many columns.
fn left_count(row: &[Entry], columns: u32) -> usize
    requires narrow { All Narrow row.now }
    requires few { length row.now ≤ max_entries }
    ensures { result ≡ length (filled columns (row_in row.now)) }
{
    row.len() + grid_join::short(row, columns)
}

// How many entries the right part of a row has: those of the right row if it is there, else an empty one over all columns, if there are any.
fn right_count(there: bool, row: &[Entry], columns: usize) -> usize
    ensures { result ≡ cond there (length row.now) (length (empty_entries 0 columns)) }
{
    if there {
        row.len()
    } else {
        usize::from(columns > 0)
    }
}

// What the entry e of a row is: of the left part's k entries the first n are left ones, from a on; of those after them the first m are right ones,
// from b on; the others are empty.
fn in_row(a: usize, n: usize, k: usize, b: usize, m: usize, e: usize) -> Place
    requires left_bound { a + n ≤ max_entries }
    requires right_bound { b + m ≤ max_entries }
    ensures { result ≡ in_row a n k b m e }
{
    if e < n {
        return Place::Left(a + e);
    }
    if e >= k && e - k < m {
        return Place::Right(b + (e - k));
    }
    Place::Empty
}

// What an entry of the joined grid is. Of the rows before row i, a left and b right entries are passed: e is the entry's number in the rows left.
fn find_place(left: Records<'_>, right: Records<'_>, entry: usize) -> Place
    requires left_readable { Readable left.entries.now left.rows.now }
    requires right_readable { Readable right.entries.now right.rows.now }
    requires columns_bound { left.columns ≤ max_position }
    ensures { result ≡ place left.entry.columns right.entry.columns 0 0 (grid_in left.entry.rows.now left.entry.entries.now)
        (grid_in right.entry.rows.now right.entry.entries.now) entry }
{
    let columns = left.columns as u32;
    let mut a: usize = 0;
    let mut b: usize = 0;
    let mut e = entry;
    for i in 0..left.rows.len().max(right.rows.len()) {
        let a_end = grid_join::end_at(left.rows, i, a);
        let b_end = grid_join::end_at(right.rows, i, b);
        let l = &left.entries[a..a_end];
        let r = &right.entries[b..b_end];
        let k = left_count(l, columns);
        let all = k + right_count(i < right.rows.len(), r, right.columns);
        if e < all {
            return in_row(a, l.len(), k, b, r.len(), e);
        }
        e -= all;
        a = a_end;
        b = b_end;
    }
    Place::Past
}

// The line of the cell that an entry of the joined grid continues, if it is a filler: an empty entry continues none, which is line 0.
pub fn joined_owner(
    lines: &[NodeRecord],
    l: usize,
    r: usize,
    left: Records<'_>,
    right: Records<'_>,
    entry: usize,
) -> Option<u32>
    requires { JoinedOwnerPre lines.now l r left.entries.now left.rows.now left.columns right.entries.now right.rows.now right.columns }
    ensures { result ≡ filler_owner (entries_of (joined (columns_of (table_rows lines.now l)) (columns_of (table_rows lines.now r))
        (grid_of (table_rows lines.now l)) (grid_of (table_rows lines.now r)))) entry }
{
    match find_place(left, right, entry) {
        Place::Left(k) => owners::filler_owner(lines, l, left, k),
        Place::Right(k) => owners::filler_owner(lines, r, right, k),
        Place::Empty => Some(0),
        Place::Past => None,
    }
}

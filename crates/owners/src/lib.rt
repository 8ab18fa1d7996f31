// The cell that a filler of a table's grid continues. The records of a grid do not say it: a listing shows a filler as line 0.
// Room is filled from its front, beside a count: a `Vec` needs a heap.
// The place of the table stands beside the lines, as `table_rows` has the two.
#![tactic(auto)]

ghost use Rattle.std.specs.Prelude.{◌≡◌, Some, ◌<◌, length};
ghost use Rattle.resolved_rows.specs.Listed.{table_rows};
ghost use Rattle.grid.specs.Grid.{grid_of, entries_of};
ghost use Rattle.owners.specs.Owner.{filler_owner};
ghost use Rattle.owners.specs.inner.Finding.{FillerOwnerPre, FindOwnerPre, OwnerAfterPre, PutPost};

use common::{MAX_ENTRIES, MAX_LINES};
use grid_build::Records;
use records::{Entry, NodeRecord, RowEnd};

// A cell that hangs into a row: its line, and how many rows it takes from that one on.
#[derive(Clone, Copy)]
struct Hanging {
    owner: u32,
    left: u32,
}

// What stands in an array before it is written.
// No `Default`, which would say that such a cell hangs into a row.
const NO_HANGING: Hanging = Hanging { owner: 0, left: 0 };

// What hangs of an entry that takes `left` rows is put behind the k that were: how many they are then.
fn put(hung: &mut [Hanging], k: usize, owner: u32, left: u32) -> usize
    requires { k < length hung.old }
    ensures { PutPost k owner left result hung.old hung.new }
{
    if left <= 1 {
        return k;
    }
    let g = Hanging {
        owner,
        left: left - 1,
    };
    hung[k] = g;
    k + 1
}

// The line of the cell that a filler continues which comes after these entries. What hangs goes in as fillers in the order in which it was put: all
// that hangs into a row stands among its entries, in the order of the entries above that it is of.
fn owner_after(
    lines: &[NodeRecord],
    at: usize,
    entries: &[Entry],
    cells: &mut [u32],
    rows: &mut [RowEnd],
    hung: &mut [Hanging],
) -> u32
    requires { OwnerAfterPre lines.now at entries.now cells.old rows.old hung.old }
    ensures { filler_owner (entries_of (grid_of (table_rows lines.now at))) (length entries.now) ≡ Some result }
{
    resolved_rows::list_rows(lines, at, cells, rows);
    // next are the cell i and the hanging one h; k were put
    let mut i: usize = 0;
    let mut h: usize = 0;
    let mut k: usize = 0;
    for e in entries {
        if e.cell == 0 {
            let Hanging { owner, left } = hung[h];
            k = put(hung, k, owner, left);
            h += 1;
        } else {
            let c = resolved_rows::cell_at(cells, i);
            k = put(hung, k, e.cell, c.rows);
            i += 1;
        }
    }
    hung[h].owner
}

// The same in arrays of its own, for the longest table: of each of its entries there is at most one that hangs into the next row.
fn find_owner(lines: &[NodeRecord], at: usize, entries: &[Entry]) -> u32
    requires { FindOwnerPre lines.now at entries.now }
    ensures { filler_owner (entries_of (grid_of (table_rows lines.now at))) (length entries.now) ≡ Some result }
{
    let mut cells = [[0u32; MAX_LINES]; 3];
    let mut rows = [records::NO_ROW; MAX_LINES];
    let mut hung = [NO_HANGING; MAX_ENTRIES];
    owner_after(
        lines,
        at,
        entries,
        cells.as_flattened_mut(),
        &mut rows,
        &mut hung,
    )
}

// The line of the cell that an entry of a table's grid continues, if it is a filler.
pub fn filler_owner(lines: &[NodeRecord], at: usize, grid: Records<'_>, entry: usize) -> Option<u32>
    requires { FillerOwnerPre lines.now at grid.entries.now grid.rows.now grid.columns }
    ensures { result ≡ filler_owner (entries_of (grid_of (table_rows lines.now at))) entry }
{
    let e = grid.entries.get(entry)?;
    if e.cell != 0 {
        return None;
    }
    Some(find_owner(lines, at, &grid.entries[..entry]))
}

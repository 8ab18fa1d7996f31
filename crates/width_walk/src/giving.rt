// What a table gives its cells: each printed one has its own width, and a missing one none.
ghost use Rattle.std.specs.Prelude.{◌≡◌, map, ◌≤◌, length};
ghost use Rattle.width_walk.specs.inner.Steps.{PrintCellsPre, printed_by, HandOutPre, HandOutPost};
ghost use Rattle.records.specs.inner.Figures.{entry_cell};

use super::{Measured, Scratch};
use kinds::Kind;
use records::{Entry, NodeRecord};
use table_layout::MeasuredTable;
use text::Estimate;

// Writes the width of each entry to the place of its cell's line; a filler has none. From the last to the first, of as many widths as entries.
fn print_cells(entries: &[Entry], wide: &[u32], walk: &mut [Option<u32>])
    requires { PrintCellsPre entries.now wide.now walk.old }
    ensures { walk.new ≡ printed_by (map entry_cell entries.now) wide.now walk.old }
{
    for (e, w) in entries.iter().rev().zip(wide[..entries.len()].iter().rev()) {
        if let Some(at) = e.cell.checked_sub(1) {
            walk[at as usize] = available_width::printed(*w);
        }
    }
}

// Lays out the line at the place `at`, if it is a table and has a width, and writes the widths of its cells.
pub fn hand_out(
    m: Measured<'_>,
    at: usize,
    raw: u32,
    width: Option<u32>,
    walk: &mut [Option<u32>],
    s: &mut Scratch<'_>,
)
    requires hand_ready { HandOutPre m.lines.now at width }
    requires lines_in_bounds { length m.lines.now ≤ length walk.old }
    ensures { HandOutPost m.entry.lines.now at m.entry.figures.now raw width walk.old walk.new }
{
    let here = m.lines[at];
    if here.kind != Kind::Table {
        return;
    }
    let Some(v) = width else {
        return;
    };
    let t = MeasuredTable {
        lines: m.lines,
        figures: m.figures,
        at,
    };
    let arranged = table_layout::arrange(t, raw, v, s.entries, s.rows, s.column, s.x, s.wide);
    let n = arranged.counts.entries;
    print_cells(&s.entries[..n], &s.wide[..n], walk);
}

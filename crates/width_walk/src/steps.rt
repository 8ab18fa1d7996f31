// The lines one after the other.
ghost use Rattle.std.specs.Prelude.{◌≡◌, ◌&&◌, ◌≤◌, ◌<◌, ◌/◌, eqb, length, get_or};
ghost use Rattle.common.specs.Limits.{max_size};
ghost use Rattle.records.specs.NodeRecord.{no_node};
ghost use Rattle.estimates.specs.Estimates.{none};
ghost use Rattle.available_width.specs.Walk.{too_narrow};
ghost use Rattle.width_walk.specs.inner.Steps.{own_width, StepPre, StepPost, WalkLinesPre, Walked};

use super::{Measured, Scratch};
use common::{DEPTHS, Reason, Refusal};
use kinds::Kind;
use records::NodeRecord;
use text::Estimate;

// The width of the line at the place i: the first line has the page's; what a cell has, its table wrote there; any other line has what its parent
// passes on, the nearest line one less deep.
fn own_width(
    k: NodeRecord,
    i: usize,
    width: u32,
    walk: &[Option<u32>],
    passed: &[Option<u32>],
) -> Option<u32>
    requires i_in_bounds { i < length walk.now }
    requires depth_in_bounds { k.depth < length passed.now }
    ensures { result ≡ own_width width i k walk.now passed.now }
{
    if i == 0 {
        return Some(width);
    }
    if k.kind == Kind::Cell {
        return walk[i];
    }
    passed[usize::from(k.depth.saturating_sub(1))]
}

// Line i: its width, which is written to its place, and what it passes on, which is written to the place of its depth.
fn step(
    m: Measured<'_>,
    i: usize,
    width: u32,
    walk: &mut [Option<u32>],
    passed: &mut [Option<u32>],
) -> Option<u32>
    requires { StepPre m.lines.now m.figures.now walk.old passed.old i }
    ensures { StepPost m.entry.lines.now m.entry.figures.now width i result
        walk.old passed.old walk.new passed.new }
{
    let here = m.lines[i];
    let own = own_width(here, i, width, walk, passed);
    let e = m.figures[i];
    walk[i] = own;
    passed[usize::from(here.depth)] = available_width::passed_on(here.kind, e, own);
    own
}

// Whether line i ends the walk: it is too narrow, and overflow is off.
fn ends(m: Measured<'_>, i: usize, own: Option<u32>, overflow: u32) -> bool
    requires { (i < length m.lines.now) × (i < length m.figures.now) }
    ensures { result ≡ (eqb overflow 0 && too_narrow (get_or m.entry.lines.now i no_node).kind (get_or m.entry.figures.now i none) own) }
{
    if overflow != 0 {
        return false;
    }
    let here = m.lines[i];
    let e = m.figures[i];
    available_width::too_narrow(here.kind, e, own)
}

// Walks the lines from the first on, where none has a width yet. A place of `passed` for each depth holds what the nearest line of that depth passes on.
pub fn walk_lines(
    m: Measured<'_>,
    raw: u32,
    width: u32,
    overflow: u32,
    walk: &mut [Option<u32>],
    s: &mut Scratch<'_>,
) -> Result<(), Refusal>
    requires width_bound { width ≤ max_size }
    requires cleared { WalkLinesPre (length m.lines.now) walk.old }
    ensures { Walked m.entry.lines.now m.entry.figures.now raw width overflow result walk.new }
{
    let mut passed = [None; DEPTHS];
    let n = m.lines.len();
    // By place: a turn's three functions are asked by it, since a line's number, its estimate and its width go by it; a line itself would be unread.
    for i in 0..n {
        let own = step(m, i, width, walk, &mut passed);
        if ends(m, i, own, overflow) {
            return Err(Reason::TooNarrow.at((i + 1) as u32));
        }
        crate::giving::hand_out(m, i, raw, own, walk, s);
    }
    Ok(())
}

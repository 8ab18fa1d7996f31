// The walk from a sheet's first line down: which width each line gets, or the first line that is too narrow for what it holds.
// `as` where a line becomes a `usize`, or a place a number of 32 bits: there is no `From`, and a `TryFrom` would never fail.
#![tactic(auto)]

mod giving; // what a table gives its cells
mod steps; // the lines one after the other

ghost use Rattle.std.specs.Prelude.{◌≤◌, length};
ghost use Rattle.common.specs.Limits.{max_size};
ghost use Rattle.width_walk.specs.inner.Steps.{Walkable, ScratchCapacity, Walked};

use common::Refusal;
use records::{Entry, NodeRecord, RowEnd};
use text::Estimate;

// A measured sheet whose lines can be walked: none of its tables is refused.
#[derive(Clone, Copy)]
pub struct Measured<'a> {
    pub lines: &'a [NodeRecord],
    pub figures: &'a [Estimate],
    pub ghost walkable: { ∥ Walkable lines.now figures.now ∥₁ },
}

// The slices that every table is laid out in, which suffice for any: its entries and rows, its columns, and two figures of each entry.
// A struct of `&mut` slices all the same: its ghost field states the lengths, and all five are lent out at once.
#[derive(Drop)]
pub struct Scratch<'a> {
    pub entries: &'a mut [Entry],
    pub rows: &'a mut [RowEnd],
    pub column: &'a mut [u32],
    pub x: &'a mut [u32],
    pub wide: &'a mut [u32],
    pub ghost capacities: { ScratchCapacity entries.now rows.now column.now x.now wide.now },
}

// Walks a measured sheet from its first line, which has the width `width`. `walk` gets the width of each line, if it has
// one; each table is laid out in `s`. Three of the four settings: a walk has no wrap, and the definitions take numbers.
pub fn walk(
    m: Measured<'_>,
    raw: u32,
    width: u32,
    overflow: u32,
    walk: &mut [Option<u32>],
    s: &mut Scratch<'_>,
) -> Result<(), Refusal>
    requires width_bound { width ≤ max_size }
    requires lines_in_bounds { length m.lines.now ≤ length walk.old }
    ensures { Walked m.entry.lines.now m.entry.figures.now raw width overflow result walk.new }
{
    walk.fill(None);
    steps::walk_lines(m, raw, width, overflow, walk, s)
}

// The estimates of a sheet's lines: node, table and cell in a cycle of calls.
// A table's grid is made where its figures are, in records that every table uses in turn.
// lines and figures are two slices: lines are read and figures written, and a struct of both would be one of a `&` and a `&mut`.
// The place of a line stands beside the lines: its figures stand there too, and the place after the lines below it goes into the answer.
// `NodeReady` is asked in each contract of the cycle: it is of the place and the slices that go on with it (docs/DESIGN-PASS.md).
#![tactic(auto)]

pub mod single;
pub mod spread;

ghost use Rattle.std.specs.Prelude.{◌≡◌, ◌<◌, length, get_or};
ghost use Rattle.kinds.specs.Kinds.{kind_number, table_kind};
ghost use Rattle.records.specs.NodeRecord.{no_node};
ghost use Rattle.estimates.specs.Estimates.{estimate};
ghost use Rattle.estimates.specs.inner.Sheet.{line_at};
ghost use Rattle.estimates.specs.inner.Meets.{Lent, Measured, CellsMeasured};
ghost use Rattle.estimates.specs.inner.Cycle.{NodeReady, Plain, Holder, IsFilledPost, BelowTablePost, NodeMeets, CellPost};

use kinds::Kind;
use records::{Entry, NodeRecord, RowEnd};
use text::Estimate;

// What the lines below a line come to: the line after them, size and least width, and how many children there are.
#[derive(Clone, Copy)]
pub struct Part {
    pub after: usize,
    pub size: u32,
    pub least: u32,
    pub children: u32,
}

impl Part {
    // The estimate of a line that adds nothing to those below it.
    fn estimate(self) -> text::Estimate
        ensures { result ≡ estimate self.size self.least 0 }
    {
        text::Estimate {
            size: self.size,
            least: self.least,
            prefix: 0,
        }
    }
}

// The estimate of a line that has neither text nor children.
// Arrays are filled with it before they are written. No `Default`: what it answers is no constant, which an array is filled with.
pub const NONE: text::Estimate = text::Estimate {
    size: 0,
    least: 0,
    prefix: 0,
};

// Measures the line at `at` and all below it, and returns the line after those. Ports `RenderNode::calc_size_estimate`.
#[cycle(cell_node_table)]
fn node(
    lines: &[NodeRecord],
    figures: &mut [Estimate],
    leasts: &mut [u32],
    entries: &mut [Entry],
    rows: &mut [RowEnd],
    wrap: u32,
    at: usize,
) -> usize
    requires node_ready { NodeReady lines.now figures.old leasts.old entries.old rows.old at }
    requires plain { Plain (line_at lines.now at) }
    ensures { NodeMeets wrap lines.now figures.old figures.new at result }
{
    let line = lines[at];
    if line.kind.is_leaf() {
        let e = single::leaf(line, wrap);
        figures[at] = e;
        at + 1
    } else if line.kind == Kind::Table {
        table(lines, figures, leasts, entries, rows, wrap, at)
    } else {
        let p = cell(lines, figures, leasts, entries, rows, wrap, at);
        let e = single::holder(line, p);
        figures[at] = e;
        p.after
    }
}

// Whether the line at `i` is a cell that holds anything: the line after it is deeper.
fn is_filled(lines: &[NodeRecord], i: usize) -> bool
    requires { i < length lines.now }
    ensures { IsFilledPost lines.now i result }
{
    let line = lines[i];
    line.kind == Kind::Cell && lines.get(i + 1).is_some_and(|next| line.depth < next.depth)
}

// Measures all below the table at `at`, and returns the line after those.
#[cycle(cell_node_table)]
fn below_table(
    lines: &[NodeRecord],
    figures: &mut [Estimate],
    leasts: &mut [u32],
    entries: &mut [Entry],
    rows: &mut [RowEnd],
    wrap: u32,
    at: usize,
) -> usize
    requires node_ready { NodeReady lines.now figures.old leasts.old entries.old rows.old at }
    requires at_table { kind_number (line_at lines.now at).kind ≡ table_kind }
    ensures { BelowTablePost wrap lines.now figures.old figures.new at result }
{
    let top = lines[at];
    let n = lines.len();
    let mut i = at + 1;
    // A while: a turn moves on by the lines that its call passes.
    while i < n {
        let line = lines[i];
        if line.depth <= top.depth {
            break;
        }
        if is_filled(lines, i) {
            let p = cell(lines, figures, leasts, entries, rows, wrap, i);
            figures[i] = p.estimate();
            i = p.after;
        } else {
            // a body, a row, or a cell that holds nothing, which needs no call
            figures[i] = NONE;
            i += 1;
        }
    }
    i
}

// Measures the table at `at` and all below it, and returns the line after those. The grid is made when all below is measured, so that no call holds
// it over others. Ports `RenderTable::calc_size_estimate`.
#[cycle(cell_node_table)]
fn table(
    lines: &[NodeRecord],
    figures: &mut [Estimate],
    leasts: &mut [u32],
    entries: &mut [Entry],
    rows: &mut [RowEnd],
    wrap: u32,
    at: usize,
) -> usize
    requires node_ready { NodeReady lines.now figures.old leasts.old entries.old rows.old at }
    requires at_table { kind_number (line_at lines.now at).kind ≡ table_kind }
    ensures { NodeMeets wrap lines.now figures.old figures.new at result }
{
    let end = below_table(lines, figures, leasts, entries, rows, wrap, at);
    figures[at] = spread::table_figures(lines, at, figures, leasts, entries, rows);
    end
}

// Measures all below the line at `at`, and returns its children combined. Ports `RenderTableCell::get_size_estimate`, and the folds over
// children of `RenderNode::calc_size_estimate`.
#[cycle(cell_node_table)]
fn cell(
    lines: &[NodeRecord],
    figures: &mut [Estimate],
    leasts: &mut [u32],
    entries: &mut [Entry],
    rows: &mut [RowEnd],
    wrap: u32,
    at: usize,
) -> Part
    requires node_ready { NodeReady lines.now figures.old leasts.old entries.old rows.old at }
    requires holder { Holder (line_at lines.now at) }
    ensures { CellPost wrap lines.now figures.old figures.new at result }
{
    let top = lines[at];
    let n = lines.len();
    let mut sum: u32 = 0;
    let mut most: u32 = 0;
    let mut children: u32 = 0;
    let mut i = at + 1;
    // A while: a turn moves on by the lines that its call passes.
    while i < n {
        let line = lines[i];
        if line.depth <= top.depth {
            break;
        }
        let next = if line.kind.is_leaf() {
            // most children are texts, which need no call of `node`
            figures[i] = single::leaf(line, wrap);
            i + 1
        } else {
            node(lines, figures, leasts, entries, rows, wrap, i)
        };
        let child = figures[i];
        sum += child.size;
        most = most.max(child.least);
        children += 1;
        i = next;
    }
    Part {
        after: i,
        size: sum,
        least: most,
        children,
    }
}

// Measures every line of a sheet; `leasts`, `entries` and `rows` are scratch. Ports `precalc_size_estimate`. They go down side by side: of a struct of
// them each function would promise that its slices stay as long as they were, which of slices is known.
pub fn measure(
    wrap: u32,
    lines: &[NodeRecord],
    figures: &mut [Estimate],
    leasts: &mut [u32],
    entries: &mut [Entry],
    rows: &mut [RowEnd],
)
    requires { Lent lines.now figures.old leasts.old entries.old rows.old }
    ensures { Measured wrap lines.now figures.old figures.new }
{
    node(lines, figures, leasts, entries, rows, wrap, 0);
}

// Measures what lies below the table at `at`, and not the table itself: all that its layout needs. No grid of this table is made.
pub fn measure_below(
    wrap: u32,
    lines: &[NodeRecord],
    at: usize,
    figures: &mut [Estimate],
    leasts: &mut [u32],
    entries: &mut [Entry],
    rows: &mut [RowEnd],
)
    requires lent { Lent lines.now figures.old leasts.old entries.old rows.old }
    requires at_in_bounds { at < length lines.now }
    requires at_table { kind_number (get_or lines.now at no_node).kind ≡ table_kind }
    ensures { CellsMeasured wrap lines.now at figures.old figures.new }
{
    below_table(lines, figures, leasts, entries, rows, wrap, at);
}

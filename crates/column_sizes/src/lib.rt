// The figures of a table's columns, from the records of its entries and of the estimates, and the columns laid out, with scratch of two sizes.
// raw and width are two parameters, as the definitions have them, and raw a number. Sizes and leasts are a slice each, as there is a list of each.
// `as` where a line becomes a `usize`, for which there is no `From`.
#![tactic(auto)]

ghost use Rattle.std.specs.Prelude.{◌≡◌, ◌≤◌, length};
ghost use Rattle.common.specs.Limits.{max_position};
ghost use Rattle.widths.specs.inner.Lay.{LayColumnsPost};
ghost use Rattle.column_sizes.specs.inner.Sizing.{figure_at, sizes_in, leasts_in};
ghost use Rattle.column_sizes.specs.inner.Capacity.{Entered, RaiseColumnsPre, RaiseColumnsPost};

use common::MAX_POSITION;
use records::Entry;
use text::Estimate;
use widths::Laid;

const FEW_COLUMNS: usize = 64;

// The figures of the cell in a line: lines are counted from 1. A filler, whose line is 0, takes no width whatever it continues.
fn figures_of(figures: &[Estimate], cell: u32) -> Estimate
    requires { cell ≤ length figures.now }
    ensures { result ≡ figure_at figures.now cell }
{
    cell.checked_sub(1)
        .map_or(estimates::NONE, |at| figures[at as usize])
}

// The largest quotient of figure and span in each column, as `render_table_tree` takes it of sizes and of least widths.
// One division an entry for each: every column of an entry has the same quotient.
pub fn raise_columns(entries: &[Entry], figures: &[Estimate], sizes: &mut [u32], leasts: &mut [u32])
    requires { RaiseColumnsPre entries.now figures.now sizes.old leasts.old }
    ensures { RaiseColumnsPost entries.now figures.now (length sizes.old) sizes.new leasts.new }
{
    sizes.fill(0);
    leasts.fill(0);
    for e in entries {
        let f = figures_of(figures, e.cell);
        // without a size, as with every filler, there is nothing to raise: no least is above its size
        if f.size != 0 {
            columns::raise(&mut sizes[e.columns()], f.size / e.span);
            columns::raise(&mut leasts[e.columns()], f.least / e.span);
        }
    }
}

// `render_table_tree` as far as the table's width: the columns' sizes and leasts, and then their widths. `Entered` is a fact of the entries, the figures
// and as many columns as `column` has places: a struct of the first two would hold that number too, and each call would ask that `column` is as long.
fn lay_in(
    entries: &[Entry],
    figures: &[Estimate],
    raw: u32,
    width: u32,
    sizes: &mut [u32],
    leasts: &mut [u32],
    column: &mut [u32],
) -> Laid
    requires entered { Entered entries.now figures.now (length column.old) }
    requires column_len_bound { length column.old ≤ max_position }
    requires sizes_len { length sizes.old ≡ length column.old }
    requires leasts_len { length leasts.old ≡ length column.old }
    ensures { LayColumnsPost (sizes_in entries.now figures.now (length column.old)) (leasts_in entries.now figures.now (length column.old)) raw width column.new result }
{
    raise_columns(entries, figures, sizes, leasts);
    widths::lay_columns(sizes, leasts, raw, width, column)
}

// The same in scratch of N places of its own. The arrays are cut here, two of them, and in `causes` four: one function that makes and cuts them would ask
// of a closure that it may be called with slices so long, and promise again what it leaves.
fn lay_sized<const N: usize>(
    entries: &[Entry],
    figures: &[Estimate],
    raw: u32,
    width: u32,
    column: &mut [u32],
) -> Laid
    requires entered { Entered entries.now figures.now (length column.old) }
    requires capacity { length column.old ≤ N }
    requires few { N ≤ max_position }
    ensures { LayColumnsPost (sizes_in entries.now figures.now (length column.old)) (leasts_in entries.now figures.now (length column.old)) raw width column.new result }
{
    let mut sizes = [0u32; N];
    let mut leasts = [0u32; N];
    let c = column.len();
    lay_in(
        entries,
        figures,
        raw,
        width,
        &mut sizes[..c],
        &mut leasts[..c],
        column,
    )
}

// Lays out a table's columns. The scratch is cleared with each call, and for few columns a short one does.
pub fn lay_columns(
    entries: &[Entry],
    figures: &[Estimate],
    raw: u32,
    width: u32,
    column: &mut [u32],
) -> Laid
    requires entered { Entered entries.now figures.now (length column.old) }
    requires column_len_bound { length column.old ≤ max_position }
    ensures { LayColumnsPost (sizes_in entries.now figures.now (length column.old)) (leasts_in entries.now figures.now (length column.old)) raw width column.new result }
{
    if column.len() <= FEW_COLUMNS {
        lay_sized::<FEW_COLUMNS>(entries, figures, raw, width, column)
    } else {
        lay_sized::<MAX_POSITION>(entries, figures, raw, width, column)
    }
}

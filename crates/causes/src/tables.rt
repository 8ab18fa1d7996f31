// The causes of a table's columns and its missing entries, from the records of its entries and the estimates.
ghost use Rattle.std.specs.Prelude.{◌≡◌, ◌≤◌, length};
ghost use Rattle.common.specs.Limits.{max_position};
ghost use Rattle.column_sizes.specs.inner.Capacity.{Entered};
ghost use Rattle.causes.specs.inner.Telling.{TellColumnsPre};
ghost use Rattle.causes.specs.inner.Tables.{causes_in, ExplainPre, ExplainPost};

use common::MAX_POSITION;
use records::Entry;
use text::Estimate;

// The causes, with a place for each figure of a column.
fn causes_by(
    entries: &[Entry],
    figures: &[Estimate],
    raw: u32,
    width: u32,
    sizes: &mut [u32],
    leasts: &mut [u32],
    shares: &mut [u32],
    column: &mut [u32],
    cause: &mut [u32],
)
    requires tellable { TellColumnsPre entries.now figures.now sizes.old leasts.old shares.old column.old }
    requires cause_len { length cause.old ≡ length column.old }
    ensures { cause.new ≡ causes_in entries.now figures.now (length cause.old) raw width }
{
    crate::tell_columns(entries, figures, raw, width, sizes, leasts, shares, column);
    crate::write_causes(width, sizes, shares, column, cause);
}

// The causes of any number of columns. The scratch is cleared with each call. The four arrays are cut here, as the two of `lay_sized` are, and not by one
// function with a closure: that would ask of it that it may be called with slices so long, and promise again what it leaves.
fn tell_causes(entries: &[Entry], figures: &[Estimate], raw: u32, width: u32, cause: &mut [u32])
    requires entered { Entered entries.now figures.now (length cause.old) }
    requires cause_len_bound { length cause.old ≤ max_position }
    ensures { cause.new ≡ causes_in entries.now figures.now (length cause.old) raw width }
{
    let mut sizes = [0u32; MAX_POSITION];
    let mut leasts = [0u32; MAX_POSITION];
    let mut shares = [0u32; MAX_POSITION];
    let mut column = [0u32; MAX_POSITION];
    let c = cause.len();
    causes_by(
        entries,
        figures,
        raw,
        width,
        &mut sizes[..c],
        &mut leasts[..c],
        &mut shares[..c],
        &mut column[..c],
        cause,
    );
}

// The causes of the columns of a table, one for each, and its missing entries, which are written to the front of their buffer: how many there are.
pub fn explain(
    entries: &[Entry],
    figures: &[Estimate],
    raw: u32,
    width: u32,
    entry: &mut [u32],
    cause: &mut [u32],
) -> usize
    requires { ExplainPre entries.now figures.now (length cause.old) entry.old }
    ensures { ExplainPost entries.now figures.now (length cause.old) raw width result entry.new cause.new }
{
    tell_causes(entries, figures, raw, width, cause);
    crate::list_missing(entries, cause, entry)
}

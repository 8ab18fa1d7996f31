// Why a column of a table is 0 wide and which entries are missing, for those who teach which cells can go missing. The Rust has no counterpart.
// raw and width are two parameters, as the definitions have them, and raw a number. Sizes, leasts, shares and widths are a slice each, as there is
// a list of each. entries and figures are two slices: what is asked of them, `TellColumnsPre` and `Entered`, is of the columns too. cause is a slice of
// numbers, as the C interface lends it.
// `as` where a place becomes a number of 32 bits: there is no `From`, and a `TryFrom` would never fail.
#![tactic(auto)]

pub mod tables; // those of one table

ghost use Rattle.std.specs.Prelude.{◌≡◌, length};
ghost use Rattle.columns.specs.Columns.{up_to};
ghost use Rattle.causes.specs.Causes.{cause_of, cause_number};
ghost use Rattle.causes.specs.inner.Telling.{TellColumnsPre, TellColumnsPost, WriteCausesPre, number_at};
ghost use Rattle.causes.specs.inner.Hidden.{none_shown, ListMissingPre, ListMissingPost};

use records::Entry;
use text::Estimate;
use widths::Laid;

// Shown is no cause: the column is not 0 wide. Of the others the first that holds is said: the page has width 0, the column is empty, its share is
// too little for one character, its share was cut away.
#[derive(Clone, Copy, Debug, PartialEq, Eq)]
pub enum Cause {
    Shown = 0,
    Empty = 1,
    Little = 2,
    Cut = 3,
    Page = 4,
}

impl Cause {
    // Its number.
    // No `From`: it would be this line, which states the number by `cause_number`.
    #[tactic(auto, unfolding(crate::specs::Causes::cause_number))]
    pub fn number(self) -> u32
        ensures { result ≡ cause_number self }
    {
        self as u32
    }
}

// The cause of a column with this size, share and final width.
#[tactic(auto, unfolding(crate::specs::Causes::cause_of))]
pub fn cause_of(width: u32, size: u32, share: u32, wide: u32) -> Cause
    ensures { result ≡ cause_of width size share wide }
{
    if width == 0 {
        Cause::Page
    } else if wide > 0 {
        Cause::Shown
    } else if size == 0 {
        Cause::Empty
    } else if share == 0 {
        Cause::Little
    } else {
        Cause::Cut
    }
}

// The sizes, the leasts, the shares and the final widths of a table's columns. Laying them out overwrites no share.
pub fn tell_columns(
    entries: &[Entry],
    figures: &[Estimate],
    raw: u32,
    width: u32,
    sizes: &mut [u32],
    leasts: &mut [u32],
    shares: &mut [u32],
    column: &mut [u32],
) -> Laid
    requires { TellColumnsPre entries.now figures.now sizes.old leasts.old shares.old column.old }
    ensures { TellColumnsPost entries.now figures.now (length column.old) raw width
        sizes.new leasts.new shares.new column.new result }
{
    column_sizes::raise_columns(entries, figures, sizes, leasts);
    widths::write_shares(sizes, leasts, width, shares);
    widths::lay_columns(sizes, leasts, raw, width, column)
}

// The number of each column's cause. Written by index: of what an adapter of `iter_mut` wrote the language knows nothing.
pub fn write_causes(width: u32, sizes: &[u32], shares: &[u32], column: &[u32], cause: &mut [u32])
    requires { WriteCausesPre sizes.now shares.now column.now cause.old }
    ensures { cause.new ≡ up_to (length sizes.now) (number_at width sizes.now shares.now column.now) }
{
    for (i, (size, (share, wide))) in sizes.iter().zip(shares.iter().zip(column)).enumerate() {
        let why = cause_of(width, *size, *share, *wide);
        cause[i] = why.number();
    }
}

// Whether each of the causes is one.
fn none_shown(cause: &[u32]) -> bool
    ensures { result ≡ none_shown cause.now }
{
    cause.iter().all(|c| *c != 0)
}

// The numbers of the entries that are missing, each of whose columns has a cause, in the order of the grid, and how many there are.
// The slice is filled from its front beside a count: a `Vec` needs a heap.
pub fn list_missing(entries: &[Entry], cause: &[u32], missing: &mut [u32]) -> usize
    requires { ListMissingPre entries.now cause.now missing.old }
    ensures { ListMissingPost entries.now cause.now missing.new result }
{
    let mut n = 0;
    for (i, e) in entries.iter().enumerate() {
        if none_shown(&cause[e.columns()]) {
            missing[n] = i as u32;
            n += 1;
        }
    }
    n
}

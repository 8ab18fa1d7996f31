// Pointing into the preview of a table that goes sideways: what lies at a character column of a row, which printed cells lie in a stretch of it, and
// which character joins it to the next row. Each call asks its arguments first, then finds the row in the sheet, and passes over its entries once.
// wrap, raw and width are a parameter each, as the C interface hands them over. x and wide are two slices, as placing writes them; `RangeFits` is of
// both and the row_range (docs/DESIGN-PASS.md). `as` where a number of entries is known to fit 32 bits: a `TryFrom` would never fail.
#![tactic(auto)]

ghost use Rattle.std.specs.Prelude.{◌≡◌, ℕ, ◌≤◌};
ghost use Rattle.common.specs.Limits.{max_entries};
ghost use Rattle.hit_test.specs.Point.{placed};
ghost use Rattle.answers.specs.declared.Under.TheVariants.{Cell};
ghost use Rattle.call_preview.specs.Preview.{pointed_of, joined_of, WithinAnswer};
ghost use Rattle.call_preview.specs.inner.Said.{RangeFits, RangeCapacity, entries_by, counted_by, ListInPost};

use answers::{Joint, Under};
use arguments::Settings;
use common::{MAX_ENTRIES, Refusal};
use hit_test::PlacedRow;
use row_lookup::Span;

// What lies under the pointer, with the cell's number in 32 bits.
// No `From`: it could not ask that the number is small.
fn narrowed(under: Under<usize>) -> Under<u32>
    requires { (n : ℕ) → under ≡ Cell n → n ≤ max_entries }
    ensures { result ≡ under }
{
    match under {
        Under::Cell(n) => Under::Cell(n as u32),
        Under::Gap => Under::Gap,
        Under::Nothing => Under::Nothing,
    }
}

// What lies at character column x of a row.
// Here and below a `PlacedRow` is written out: a function for it would be handed nearly what it writes.
// `joining` and `within` begin alike: one function with a closure would ask of it what `RangeFits` says, and promise what it answers.
pub fn at(
    sheet: &[u8],
    line: u32,
    wrap: u32,
    raw: u32,
    width: u32,
    row: u32,
    x: u32,
) -> Result<Under<u32>, Refusal>
    ensures { result ≡ pointed_of sheet.now line wrap raw width row x }
{
    let asked = Settings::of_pointing(wrap, raw, width);
    let mut starts = [0u32; MAX_ENTRIES];
    let mut widths = [0u32; MAX_ENTRIES];
    let row = row_lookup::find(sheet, line, asked, row, &mut starts, &mut widths)?;
    let placed = PlacedRow {
        x: &starts,
        wide: &widths,
        first: row.first,
        end: row.end,
    };
    Ok(narrowed(placed.at(x)))
}

// The joining character at character column x between a row and the next.
// Not one function with `at`, for the reason there.
pub fn joining(
    sheet: &[u8],
    line: u32,
    wrap: u32,
    raw: u32,
    width: u32,
    row: u32,
    x: u32,
) -> Result<Joint, Refusal>
    ensures { result ≡ joined_of sheet.now line wrap raw width row x }
{
    let asked = Settings::of_pointing(wrap, raw, width);
    let mut starts = [0u32; MAX_ENTRIES];
    let mut widths = [0u32; MAX_ENTRIES];
    let row = row_lookup::find(sheet, line, asked, row, &mut starts, &mut widths)?;
    let above = PlacedRow {
        x: &starts,
        wide: &widths,
        first: row.first,
        end: row.end,
    };
    let below = PlacedRow {
        x: &starts,
        wide: &widths,
        first: row.end,
        end: row.next,
    };
    Ok(above.joining(&below, x))
}

// The printed cells in the stretch of the row that was found, written to the front of the lent buffer, and how many.
fn list_in(
    row_range: Result<Span, Refusal>,
    x: &[u32],
    wide: &[u32],
    from: u32,
    to: u32,
    entry: &mut [u32],
) -> usize
    requires range_fits { RangeFits row_range x.now wide.now }
    requires range_capacity { RangeCapacity row_range entry.old }
    ensures { ListInPost (entries_by (placed x.now wide.now) from to row_range) result entry.new }
{
    // Not map_or: of what a closure leaves in a lent buffer nothing is known after it.
    match row_range {
        Ok(row) => {
            let placed = PlacedRow {
                x,
                wide,
                first: row.first,
                end: row.end,
            };
            placed.within(from, to, entry)
        }
        Err(_) => 0,
    }
}

// So many, or the refusal.
#[tactic(auto, unfolding(crate::specs::inner::Said::counted_by))]
fn counted(row_range: Result<Span, Refusal>, n: usize) -> Result<u32, Refusal>
    requires { n ≤ max_entries }
    ensures { result ≡ counted_by n row_range }
{
    row_range.map(|_| n as u32)
}

// The printed cells of a row that lie wholly in the stretch from one character column up to another, left to right: each by its number among the
// grid's entries.
// Not one function with `at`, for the reason there.
pub fn within(
    sheet: &[u8],
    line: u32,
    wrap: u32,
    raw: u32,
    width: u32,
    row: u32,
    from: u32,
    to: u32,
    entry: &mut [u32],
) -> Result<u32, Refusal>
    ensures { WithinAnswer sheet.now line wrap raw width row from to entry.old result entry.new }
{
    let asked = Settings::of_within(wrap, raw, width, entry.len());
    let mut starts = [0u32; MAX_ENTRIES];
    let mut widths = [0u32; MAX_ENTRIES];
    let row_range = row_lookup::find(sheet, line, asked, row, &mut starts, &mut widths);
    let n = list_in(row_range, &starts, &widths, from, to, entry);
    common::zero_rest(entry, n);
    counted(row_range, n)
}

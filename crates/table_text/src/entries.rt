// The entries of a grid, row by row, with two figures of each. What is in the slices is not trusted: a figure or an entry outside counts as 0.
// `as` where a place of 32 bits becomes a `usize`, for which there is no `From`.
ghost use Rattle.std.specs.Prelude.{◌≡◌, get_or};

use super::lines::Listing;
use records::{Entry, NO_ENTRY, RowEnd};

// The rows of a grid, its entries, and two figures of each entry.
#[derive(Clone, Copy)]
pub struct Entries<'a> {
    pub rows: &'a [RowEnd],
    pub grid: &'a [Entry],
    pub start: &'a [u32],
    pub extent: &'a [u32],
}

// What stands at a place of a buffer, or `none` if that is outside.
pub fn value_at<T: Copy>(values: &[T], i: u32, none: T) -> T
    ensures { result ≡ get_or values.now i none }
{
    values.get(i as usize).copied().unwrap_or(none)
}

impl Entries<'_> {
    // Puts the line of one entry: row, cell, and its two figures. An entry whose second figure is 0 is left out: in a layout the missing
    // ones have width 0, and in a grid each span is at least 1.
    fn put_one(&self, out: &mut Listing<'_>, line: u32, e: u32) {
        let figure = value_at(self.extent, e, 0);
        if figure != 0 {
            let cell = value_at(self.grid, e, NO_ENTRY).cell;
            out.four(line, cell, value_at(self.start, e, 0), figure);
        }
    }

    // Puts the entries of all rows: those of a row end where it says, and the next row's begin there. By place: three slices are read at it, and a row may
    // end after them.
    pub fn put(&self, out: &mut Listing<'_>) {
        let mut from = 0;
        for row in self.rows {
            for e in from..row.end {
                self.put_one(out, row.line, e);
            }
            from = row.end;
        }
    }
}

// Puts the line and the end of each row.
pub fn row_ends(out: &mut Listing<'_>, rows: &[RowEnd]) {
    for row in rows {
        out.two(row.line, row.end);
    }
}

// Puts a line for each number: its place, from 0 on, and the number.
pub fn numbered(out: &mut Listing<'_>, values: &[u32]) {
    for (j, n) in (0..u32::MAX).zip(values) {
        out.two(j, *n);
    }
}

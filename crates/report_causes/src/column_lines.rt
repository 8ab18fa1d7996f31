// A line for each column of a table: its size, its least width, its share, its final width and its cause.
ghost use Rattle.std.specs.Prelude.{◌≤◌, length};
ghost use Rattle.common.specs.Limits.{max_position};
ghost use Rattle.column_sizes.specs.inner.Capacity.{Entered};

use answers::Way;
use common::MAX_POSITION;
use records::Entry;
use table_text::entries::value_at;
use table_text::lines::Listing;
use text::Estimate;

// Puts the word of a cause, given by its number, and ends the line: causes stand as numbers in the buffer that C lends.
fn word(out: &mut Listing<'_>, cause: u32) {
    match cause {
        0 => out.words(b"shown\n"),
        1 => out.words(b"empty\n"),
        2 => out.words(b"little\n"),
        3 => out.words(b"cut\n"),
        _ => out.words(b"page\n"),
    }
}

// Puts a number and a space.
fn spaced(out: &mut Listing<'_>, n: u32) {
    out.number(n);
    out.words(b" ");
}

// Puts four numbers, and a space after each.
pub fn four_spaced(out: &mut Listing<'_>, a: u32, b: u32, c: u32, d: u32) {
    spaced(out, a);
    spaced(out, b);
    spaced(out, c);
    spaced(out, d);
}

// A table of a way and a width: its grid's entries, the estimates of its cells, and the final width and the cause of each column.
#[derive(Clone, Copy)]
pub struct Columns<'a> {
    pub way: Way,
    pub width: u32,
    pub entries: &'a [Entry],
    pub figures: &'a [Estimate],
    pub column: &'a [u32],
    pub cause: &'a [u32],
}

impl Columns<'_> {
    // Puts the line of one column. Down the page every column has the width, and that is its share too.
    fn put_one(&self, out: &mut Listing<'_>, j: u32, size: u32, least: u32, share: u32) {
        let share = match self.way {
            Way::Sideways => share,
            Way::Down => self.width,
        };
        four_spaced(out, j, size, least, share);
        spaced(out, value_at(self.column, j, 0));
        word(out, value_at(self.cause, j, 0));
    }

    // Puts the heading, and the line of every column, of which the size, the least and the share are made first.
    // The arrays are declared here: no function can hand out slices of its own.
    pub fn put(&self, out: &mut Listing<'_>)
        requires entered { Entered self.now.entries.now self.now.figures.now (length self.now.cause.now) }
        requires cause_len_bound { length self.now.cause.now ≤ max_position }
    {
        let mut sizes = [0u32; MAX_POSITION];
        let mut leasts = [0u32; MAX_POSITION];
        let mut shares = [0u32; MAX_POSITION];
        let c = self.cause.len();
        let sizes = &mut sizes[..c];
        let leasts = &mut leasts[..c];
        let shares = &mut shares[..c];
        column_sizes::raise_columns(self.entries, self.figures, sizes, leasts);
        widths::write_shares(sizes, leasts, self.width, shares);
        out.words(b"column size least share width cause\n");
        let figures = sizes.iter().zip(leasts.iter().zip(shares.iter()));
        for (j, (size, (least, share))) in (0..u32::MAX).zip(figures) {
            self.put_one(out, j, *size, *least, *share);
        }
    }
}

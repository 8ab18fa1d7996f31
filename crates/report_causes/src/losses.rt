// Which entries of a table are missing, by their numbers in the grid, which ascend. What stands in the slices is not trusted: each index is tested.
// `as` where a line or a number becomes a `usize`, or a count one of 32 bits: there is no `From`, and a `TryFrom` would never fail.
ghost use Rattle.std.specs.Prelude.{◌<◌, length};

use super::column_lines::four_spaced;
use grid_build::Records;
use records::{NO_ENTRY, RowEnd};
use table_text::entries::value_at;
use table_text::lines::Listing;
use text::Estimate;

// The grid of a table, the estimates of its cells, and the numbers of its missing entries.
#[derive(Clone, Copy)]
pub struct Missed<'a> {
    pub grid: Records<'a>,
    pub figures: &'a [Estimate],
    pub missing: &'a [u32],
    pub ghost few: { length missing.now < 4294967296 },
}

impl Missed<'_> {
    // The size of the cell in a line, the first of its figures; a filler, whose line is 0, has none of its own.
    fn size_of(&self, cell: u32) -> u32 {
        cell.checked_sub(1)
            .and_then(|at| self.figures.get(at as usize))
            .map_or(0, |e| e.size)
    }

    // With how many of the missing entries something is lost: a cell of a size above 0.
    fn lost(&self) -> u32 {
        let is_lost = |e: &&u32| self.size_of(value_at(self.grid.entries, **e, NO_ENTRY).cell) > 0;
        self.missing.iter().filter(is_lost).count() as u32
    }

    // Puts the line of one entry, which stands in this row: row, cell, first column, span and size.
    fn put_one(&self, out: &mut Listing<'_>, row: RowEnd, e: u32) {
        if let Some(entry) = self.grid.entries.get(e as usize) {
            four_spaced(out, row.line, entry.cell, entry.first, entry.span);
            out.number(self.size_of(entry.cell));
            out.words(b"\n");
        }
    }

    // Puts how many entries are missing, with how many of them something is lost, and a line for each. They ascend, and so do their rows: that of an
    // entry is the first from the last one's on that ends after it.
    pub fn put(&self, out: &mut Listing<'_>) {
        out.words(b"missing lost\n");
        out.two(self.missing.len() as u32, self.lost());
        out.words(b"row cell first span size\n");
        let mut rows = self.grid.rows;
        for &e in self.missing {
            let Some(i) = rows.iter().position(|row| e < row.end) else {
                return;
            };
            rows = &rows[i..];
            self.put_one(out, rows[0], e);
        }
    }
}

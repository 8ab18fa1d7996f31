// What is written of one table: its heading, its columns and its entries.
ghost use Rattle.std.specs.Prelude.{◌≡◌};
ghost use Rattle.table_text.specs.inner.Writing.{way_letter};

use super::entries::{Entries, numbered};
use super::lines::Listing;
use answers::Way;

// The letter of a way.
// No `From`: what is printed for a way is by a definition of its own, `way_letter`.
#[tactic(auto, unfolding(crate::specs::inner::Writing::way_letter))]
fn letter_of(way: Way) -> u8
    ensures { result ≡ way_letter way }
{
    match way {
        Way::Sideways => b'h',
        Way::Down => b'v',
    }
}

// Puts the first two lines of a table: its line, its way, its columns and its width.
pub fn heading(out: &mut Listing<'_>, line: u32, way: Way, columns: u32, width: u32) {
    out.words(b"table way cols wide\n");
    out.number(line);
    out.words(&[b' ', letter_of(way), b' ']);
    out.two(columns, width);
}

// Puts the columns' widths, and each entry that is printed with its start and its width.
pub fn cells(out: &mut Listing<'_>, column: &[u32], entries: Entries) {
    out.words(b"column width\n");
    numbered(out, column);
    out.words(b"row cell x width\n");
    entries.put(out);
}

// What the programs write of one thing, whatever it comes from: a line, the entries of a grid, a table, a refusal. The format is our own: the Rust has
// no counterpart.
#![tactic(auto)]

pub mod lines; // lines.rt: one line of a listing
pub mod entries; // entries.rt: the entries of a grid, row by row
pub mod tables; // tables.rt: one table

use common::Refusal;
use lines::Listing;

// Puts a refusal: the number of its reason, and its line.
pub fn refusal(out: &mut Listing<'_>, why: Refusal) {
    out.words(b"refusal line\n");
    out.two(why.reason.number(), why.line);
}

// What lies under the pointer in a row of a table that lies sideways. The entries of all rows stand in two slices, x and width of each. A sum
// of x and width is nowhere taken, so that any figures do.
// `as` where the place of an entry is known to fit 32 bits: a `TryFrom` would never fail.
#![tactic(auto)]

ghost use Rattle.std.specs.Prelude.{◌≡◌};
ghost use Rattle.std.proofs.Math.Seq.{slice};
ghost use Rattle.placement.specs.Place.{at};
ghost use Rattle.hit_test.specs.Point.{placed, covers, closes, inside, pointed, gap_at, joint_of, joined};
ghost use Rattle.hit_test.specs.inner.Rows.{InSlices, WithinPre, WithinPost};

use answers::{Joint, Under};

// An entry covers the column.
fn covers_column(x: u32, wide: u32, column: u32) -> bool
    ensures { result ≡ covers (at x wide) column }
{
    x <= column && column - x < wide
}

// An entry is printed and ends at the column.
fn closes_at(x: u32, wide: u32, column: u32) -> bool
    ensures { result ≡ closes (at x wide) column }
{
    x < column && column - x == wide
}

// An entry is printed and lies wholly in the stretch from one column up to another.
fn lies_inside(x: u32, wide: u32, from: u32, to: u32) -> bool
    ensures { result ≡ inside (at x wide) from to }
{
    wide != 0 && (from..=to).contains(&x) && wide <= to - x
}

// The joining character by whether a gap stands above, and below.
#[tactic(auto, unfolding(crate::specs::Point::joint_of))]
fn joint_of(up: bool, down: bool) -> Joint
    ensures { result ≡ joint_of up down }
{
    match (up, down) {
        (true, true) => Joint::Both,
        (true, false) => Joint::Up,
        (false, true) => Joint::Down,
        (false, false) => Joint::Plain,
    }
}

// A row: its entries are those from first up to end, of all whose x and width stand in the two slices. The place of an entry is the number that an
// answer gives, so that the slices are not cut to the row.
#[derive(Clone, Copy)]
pub struct PlacedRow<'a> {
    pub x: &'a [u32],
    pub wide: &'a [u32],
    pub first: usize,
    pub end: usize,
    pub ghost in_slices: { InSlices first end x.now wide.now },
}

impl PlacedRow<'_> {
    // What lies at the column. Once a printed cell ends there, it is a gap if another is printed.
    pub fn at(&self, column: u32) -> Under<usize>
        ensures { result ≡ pointed self.now.first column (slice self.now.first self.now.end (placed self.now.x.now self.now.wide.now)) }
    {
        let mut ended = false;
        let x = &self.x[self.first..self.end];
        let wide = &self.wide[self.first..self.end];
        // Each with its place, which is the answer.
        for (i, (x, w)) in (self.first..).zip(x.iter().zip(wide)) {
            if ended {
                if *w != 0 {
                    return Under::Gap;
                }
            } else {
                if covers_column(*x, *w, column) {
                    return Under::Cell(i);
                }
                ended = closes_at(*x, *w, column);
            }
        }
        Under::Nothing
    }

    // Whether the row has a gap at the column.
    pub fn gap_at(&self, column: u32) -> bool
        ensures { result ≡ gap_at column (slice self.now.first self.now.end (placed self.now.x.now self.now.wide.now)) }
    {
        matches!(self.at(column), Under::Gap)
    }

    // The joining character between the row and the next; below the last row there is one without entries.
    pub fn joining(&self, next: &PlacedRow, column: u32) -> Joint
        ensures { result ≡ joined column
            (slice self.now.first self.now.end (placed self.now.x.now self.now.wide.now))
            (slice next.now.first next.now.end (placed next.now.x.now next.now.wide.now)) }
    {
        joint_of(self.gap_at(column), next.gap_at(column))
    }

    // The printed entries that lie wholly in the stretch, left to right: their numbers, written over the front of the lent slice, and how many.
    pub fn within(&self, from: u32, to: u32, entry: &mut [u32]) -> usize
        requires { WithinPre self.now.first self.now.end entry.old }
        ensures { WithinPost self.now.first from to (slice self.now.first self.now.end (placed self.now.x.now self.now.wide.now)) entry.old result entry.new }
    {
        let mut n: usize = 0;
        let x = &self.x[self.first..self.end];
        let wide = &self.wide[self.first..self.end];
        // Each with its place, which is the number that is written: the slice is filled from its front beside a count, since a `Vec` needs a heap.
        for (i, (x, w)) in (self.first..).zip(x.iter().zip(wide)) {
            if lies_inside(*x, *w, from, to) {
                entry[n] = i as u32;
                n += 1;
            }
        }
        n
    }
}

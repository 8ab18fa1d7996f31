// The column edges of a table: what `RenderTable::new` keeps in a BTreeSet and numbers by a HashMap.
// Entries and rows are two slices in `mark_rows`: the struct of both is `grid_build::Records`, on which this crate does not stand.
// `p ≤ max_position` is asked in four contracts: a type of one number would be made and opened again at each call (docs/DESIGN-PASS.md).
// `as` where a position or a column becomes a `usize` or a number of 32 bits: there is no `From`, and a `TryFrom` would never fail.
#![tactic(auto)]

ghost use Rattle.std.specs.Prelude.{◌≡◌, true, false, ◌||◌, ℕ, ◌+◌, ◌≤◌, length, eqb};
ghost use Rattle.std.specs.Int.Count.{ones};
ghost use Rattle.common.specs.Lists.{sum, mem};
ghost use Rattle.common.specs.Limits.{max_position};
ghost use Rattle.records.specs.inner.Figures.{row_ends_of, entry_cells_of, entry_spans_of};
ghost use Rattle.column_edges.specs.Edges.{count_below, ends_from};
ghost use Rattle.column_edges.specs.inner.Edges.{is_edge, edge_at, rows_from, rows_ends, RowsFit, RenumberPost};
ghost use Rattle.column_edges.specs.inner.Lookup.{ones_below, NoneAbove, Counted};

use records::{Entry, RowEnd};

// A set of edges: position p is bit p % 64 of word p / 64. An array and no tree, since the project takes no memory from a heap.
#[derive(Clone, Copy)]
pub struct Edges {
    pub words: [u64; 65],
}

// A finished set of edges: beside each word that has an edge stands how many edges lie in all earlier words, so that a number is found by one count
// and one masked word.
#[derive(Clone, Copy)]
pub struct Numbers {
    pub words: [u64; 65],
    pub counts: [u32; 65],
    pub ghost counted: { Counted words counts },
}

impl Edges {
    // No edges.
    pub fn new() -> Self
        ensures { (q : ℕ) → is_edge result.words q ≡ false }
    {
        Edges { words: [0u64; 65] }
    }

    // The position p is an edge too: `BTreeSet::insert`. In place: passed by value for each entry the set would be copied each time.
    pub fn insert(&mut self, p: usize)
        requires { p ≤ max_position }
        ensures { (q : ℕ) → is_edge self.new.words q ≡ (eqb q p || is_edge self.old.words q) }
    {
        let i = p / 64;
        let w = self.words[i];
        self.words[i] = w | (1u64 << (p % 64));
    }

    // The ends of a row's entries are edges too, by their spans in positions; the answer is where the row ends.
    fn mark(&mut self, entries: &[Entry]) -> usize
        requires { sum (entry_spans_of entries.now) ≤ max_position }
        ensures ended { result ≡ sum (entry_spans_of entries.now) }
        ensures marked { (q : ℕ) → is_edge self.new.words q ≡ (mem q (ends_from 0 (entry_spans_of entries.now)) || is_edge self.old.words q) }
    {
        let mut pos: usize = 0;
        for e in entries {
            pos += e.span as usize;
            self.insert(pos);
        }
        pos
    }
}

// The ones of a word. A table of wide spans has empty words, and an empty one needs no count.
fn ones_of(w: u64) -> u32
    ensures { result ≡ ones w }
{
    if w == 0 { 0 } else { u64::count_ones(w) }
}

// Beside each word up to that of the position `top` the count of the ones in all earlier words. No edge lies above `top`, so that the
// counts past it are never read: for a small table, whose edges lie in the first word, one word is counted and not 65. Slices, not a struct of both:
// of a slice the language knows that each number is below 2^64, of an array within a struct it doesn't. Written by index: of
// what an adapter of `iter_mut` wrote the language knows nothing.
fn count_words(words: &[u64], top: usize, counts: &mut [u32])
    requires words_len { length words.now ≡ 65 }
    requires top_le_max_position { top ≤ max_position }
    requires none_above { NoneAbove top words.now }
    requires counts_len { length counts.old ≡ 65 }
    ensures { Counted words.now counts.new }
{
    let mut n: u32 = 0;
    for (i, word) in words[..top / 64 + 1].iter().enumerate() {
        counts[i] = n;
        n += ones_of(*word);
    }
}

// The ends of all rows' entries are edges too, and then the set is finished; a row's record says how many entries there are up to and including
// it. No edge but 0 is given.
pub fn mark_rows(given: Edges, entries: &[Entry], rows: &[RowEnd]) -> Numbers
    requires rows_fit { RowsFit 0 (row_ends_of rows.now) (entry_spans_of entries.now) }
    requires none_above { NoneAbove 0 given.words }
    ensures { (q : ℕ) → is_edge result.words q ≡ (mem q (rows_ends (rows_from 0 (row_ends_of rows.now) (entry_spans_of entries.now))) || is_edge given.words q) }
{
    let mut edges = given;
    let mut top: usize = 0;
    let mut start: usize = 0;
    for row in rows {
        let end = row.end as usize;
        let last = edges.mark(&entries[start..end]);
        top = top.max(last);
        start = end;
    }
    let mut counts = [0u32; 65];
    count_words(&edges.words, top, &mut counts);
    Numbers {
        words: edges.words,
        counts,
    }
}

impl Numbers {
    // Whether the position p is an edge.
    #[tactic(auto, unfolding(crate::specs::inner::Edges::is_edge))]
    fn is_edge(&self, p: usize) -> bool
        requires { p ≤ max_position }
        ensures { result ≡ is_edge self.now.words p }
    {
        let w = self.words[p / 64];
        (w >> (p % 64)) % 2 == 1
    }

    // How many edges of p's own word lie below p.
    fn below_in_word(&self, p: usize) -> u32
        requires { p ≤ max_position }
        ensures { result ≡ ones_below self.now.words p }
    {
        let w = self.words[p / 64];
        u64::count_ones(w & ((1u64 << (p % 64)) - 1))
    }

    // The number of the edge p, by one count and one word.
    fn find(&self, p: usize) -> Option<usize>
        requires { p ≤ max_position }
        ensures { result ≡ edge_at self.now.words p }
    {
        if !self.is_edge(p) {
            return None;
        }
        let n = self.counts[p / 64] + self.below_in_word(p);
        Some(n as usize)
    }

    // The number of the edge that lies s positions past the edge p, whose number is n: where the two are neighbours nothing is counted.
    fn find_past(&self, p: usize, n: usize, s: usize) -> Option<usize>
        requires s_bound { p + s ≤ max_position }
        requires p_value { is_edge self.now.words p ≡ true }
        requires n_value { n ≡ count_below (is_edge self.now.words) p }
        ensures { result ≡ edge_at self.now.words (p + s) }
    {
        if s != 1 {
            return self.find(p + s);
        }
        if !self.is_edge(p + s) {
            return None;
        }
        Some(n + 1)
    }

    // A row's entries in columns, in the place of the same entries in positions: each one's line stays, and it gets the column where it starts, and
    // its span as a count of edges. The row's number of columns, or that one of its entries ends at no edge.
    pub fn renumber(&self, entries: &mut [Entry]) -> Option<usize>
        requires words_value { is_edge self.now.words 0 ≡ true }
        requires entries_bound { sum (entry_spans_of entries.old) ≤ max_position }
        ensures { RenumberPost (is_edge self.now.words) (entry_spans_of entries.old) (entry_cells_of entries.old) result entries.new }
    {
        let mut pos: usize = 0;
        let mut column: usize = 0;
        for entry in entries.iter_mut() {
            let s = entry.span as usize;
            let n = self.find_past(pos, column, s)?;
            entry.first = column as u32;
            entry.span = (n - column) as u32;
            pos += s;
            column = n;
        }
        Some(column)
    }
}

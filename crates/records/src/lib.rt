// What is kept of a line of a sheet, of an entry of a grid and of a row of it.
#![tactic(auto)]

ghost use Rattle.std.specs.Prelude.{◌≡◌, ◌+◌};
ghost use Rattle.records.specs.inner.NodeRecord.{bare_node, cell_node, text_node};

use kinds::Kind;
use std::ops::Range;

// The number of a line that has none: 0, shifted up as numbers are.
// `SHIFT` of text is the same number for another thing: each is by its own definition.
const NO_NUMBER: u32 = 1000000000;

// What is kept of a line. The number is shifted up by 1,000,000,000; own is the size of the line's own text, 2 more for img.
#[derive(Clone, Copy)]
pub struct NodeRecord {
    pub depth: u8,
    pub kind: Kind,
    pub cols: u16,
    pub rows: u16,
    pub number: u32,
    pub own: u32,
}

impl NodeRecord {
    // A line of a kind without figures.
    pub fn bare(depth: u8, kind: Kind) -> NodeRecord
        ensures { result ≡ bare_node depth kind }
    {
        NodeRecord {
            depth,
            kind,
            cols: 0,
            rows: 0,
            number: NO_NUMBER,
            own: 0,
        }
    }

    // A cell of so many columns and rows.
    pub fn cell(depth: u8, cols: u16, rows: u16) -> NodeRecord
        ensures { result ≡ cell_node depth cols rows }
    {
        NodeRecord {
            cols,
            rows,
            ..NodeRecord::bare(depth, Kind::Cell)
        }
    }

    // A text of so many columns.
    pub fn text(depth: u8, own: u32) -> NodeRecord
        ensures { result ≡ text_node depth own }
    {
        NodeRecord {
            own,
            ..NodeRecord::bare(depth, Kind::Text)
        }
    }
}

// An entry of a table's grid: the line of its cell, or 0 for a filler, its first column and its span. The format and the C interface have that 0.
#[derive(Clone, Copy)]
pub struct Entry {
    pub cell: u32,
    pub first: u32,
    pub span: u32,
}

impl Entry {
    // Its columns. `as` since there is no `From` of 32 bits to a `usize`.
    pub fn columns(self) -> Range<usize>
        ensures start { result.start ≡ self.first }
        ensures end { result.end ≡ self.first + self.span }
    {
        let first = self.first as usize;
        first..first + self.span as usize
    }
}

// A row of a table's grid: its line, and how many entries there are up to and including it.
#[derive(Clone, Copy)]
pub struct RowEnd {
    pub line: u32,
    pub end: u32,
}

// What an array is filled with before it is written.
// No `Default`, which would say that such a line or entry is one. The definitions have these zeros as `no_node`, `no_entry` and `no_row`.
pub const NO_NODE: NodeRecord = NodeRecord {
    depth: 0,
    kind: Kind::Text,
    cols: 0,
    rows: 0,
    number: 0,
    own: 0,
};

pub const NO_ENTRY: Entry = Entry {
    cell: 0,
    first: 0,
    span: 0,
};

pub const NO_ROW: RowEnd = RowEnd { line: 0, end: 0 };

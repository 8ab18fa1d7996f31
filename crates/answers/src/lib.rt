// What the public calls answer where they accept: figures, each with its name. Where they do not, they answer a refusal of crate lists.
#![tactic(auto)]

ghost use Rattle.std.specs.Prelude.{◌≡◌};
ghost use Rattle.answers.specs.Numbers.{way_number, joint_number};

// Sideways: the cells of a row stand beside each other. Down: each cell has the whole width.
#[derive(Clone, Copy, Debug, PartialEq, Eq)]
pub enum Way {
    Sideways = 0,
    Down = 1,
}

impl Way {
    // Its number for C.
    // No `From`: it would be this line, which states the number by `way_number`.
    #[tactic(auto, unfolding(crate::specs::Numbers::way_number))]
    pub fn number(self) -> u32
        ensures { result ≡ way_number self }
    {
        self as u32
    }
}

// The answer of `grid`: how many rows, entries and columns the table has. `Counts` of gridding has the same three as places: here they are what C gets.
#[derive(Clone, Copy, Debug, PartialEq, Eq)]
pub struct Grid {
    pub rows: u32,
    pub entries: u32,
    pub columns: u32,
}

// The answer of `layout`: the table's way, how many entries and columns it has, and how wide it is.
#[derive(Clone, Copy, Debug, PartialEq, Eq)]
pub struct Layout {
    pub way: Way,
    pub entries: u32,
    pub columns: u32,
    pub width: u32,
}

// The answer of `missing`: how many entries are missing, and how many columns there are, each with its cause.
#[derive(Clone, Copy, Debug, PartialEq, Eq)]
pub struct Causes {
    pub count: u32,
    pub columns: u32,
}

// The answer of `at`: the printed cell with this number among the grid's entries, the gap between two printed cells, or nothing.
#[derive(Clone, Copy, Debug, PartialEq, Eq)]
pub enum Under<T> {
    Cell(T),
    Gap,
    Nothing,
}

// The answer of `joining`: the joining character between a row and the next, as a gap stands above it, below it, on both sides or on none.
#[derive(Clone, Copy, Debug, PartialEq, Eq)]
pub enum Joint {
    Plain = 0,
    Up = 1,
    Down = 2,
    Both = 3,
}

impl Joint {
    // Its number for C.
    // No `From`: it would be this line, which states the number by `joint_number`.
    #[tactic(auto, unfolding(crate::specs::Numbers::joint_number))]
    pub fn number(self) -> u32
        ensures { result ≡ joint_number self }
    {
        self as u32
    }
}

// The answer of `nested` for a table that has a width: that which the walk gives it, and its layout at that width.
#[derive(Clone, Copy, Debug, PartialEq, Eq)]
pub struct Nested {
    pub at: u32,
    pub layout: Layout,
}

// Where the answer of `spoken` stands in the sheet: from a byte on, so many bytes.
#[derive(Clone, Copy, Debug, PartialEq, Eq)]
pub struct Part {
    pub from: u32,
    pub length: u32,
}

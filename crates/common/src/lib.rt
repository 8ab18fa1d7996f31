// What more than one crate needs: the limits, a sum, and writing a lent buffer.
#![tactic(auto)]

ghost use Rattle.std.specs.Prelude.{◌≡◌, ◌≤◌, ◌<◌, ◌^◌, ℕ, map, length, take, drop};
ghost use Rattle.std.specs.Fn.{FnReturnsAt};
ghost use Rattle.common.specs.Lists.{padded, sum};
ghost use Rattle.common.specs.Refusals.{reason_number, refusal};

// The limits of specs/Limits.antt; each contract that meets one cites its name there.
pub const MAX_BYTES: usize = 65536;

pub const MAX_LINES: usize = 4096;

pub const MAX_FEEDS: usize = 4097;

pub const MAX_DEPTH: u32 = 24;

// How many depths there are, from 0 on: the places of an array by depth.
// `as`: there is no `From` of a `u32` for a `usize`.
pub const DEPTHS: usize = MAX_DEPTH as usize + 1;

pub const MAX_COLS: u32 = 1000;

pub const MAX_ROWS: u32 = 65534;

pub const MAX_POSITION: usize = 4096;

pub const MAX_ENTRIES: usize = 8192;

pub const MAX_WRAP: u32 = 1000;

pub const MAX_WIDTH: u32 = 65535;

pub const MAX_WIDTHS: usize = 1024;

// Why a call is refused, by the number that the format gives it.
#[derive(Clone, Copy, Debug, PartialEq, Eq)]
pub enum Reason {
    Heading = 1,
    Fields = 2,
    TextByte = 3,
    Nesting = 4,
    RowEnd = 5,
    TooManyEntries = 6,
    ColumnEdge = 7,
    TooLong = 8,
    Setting = 9,
    NoTable = 10,
    ShortBuffer = 11,
    TooNarrow = 12,
    NoExpression = 13,
    OutOfBounds = 14,
    WidthList = 16,
}

// A refusal: why, and the line of the sheet, 0 where it is of no line: the number that the format and the C interface have for it.
#[derive(Clone, Copy, Debug, PartialEq, Eq)]
pub struct Refusal {
    pub reason: Reason,
    pub line: u32,
}

impl Reason {
    // Its number in the format.
    // No `From`: it would be this line, which states the number by `reason_number`.
    #[tactic(auto, unfolding(crate::specs::Refusals::reason_number))]
    pub fn number(self) -> u32
        ensures { result ≡ reason_number self }
    {
        self as u32
    }

    // The refusal for this reason, of a line of the sheet.
    pub fn at(self, line: u32) -> Refusal
        ensures { result ≡ refusal self line }
    {
        Refusal { reason: self, line }
    }
}

// The first n places of src, and then zeros; n = 0 leaves zeros alone.
pub fn copy_out(src: &[u32], n: usize, dst: &mut [u32])
    requires in_src { n ≤ length src.now }
    requires in_dst { n ≤ length dst.old }
    ensures { dst.new ≡ padded (length dst.old) (take n src.now) }
{
    dst[..n].copy_from_slice(&src[..n]);
    dst[n..].fill(0);
}

// The first n places of the buffer stay, the others become zeros; n = 0 leaves zeros alone.
// A call of `fill`, by one name: the calls in seven crates share it, and what it promises.
pub fn zero_rest(buffer: &mut [u32], n: usize)
    requires { n ≤ length buffer.old }
    ensures { buffer.new ≡ padded (length buffer.old) (take n buffer.old) }
{
    buffer[n..].fill(0);
}

// One figure of each record, written to the front of the buffer; what stands past them stays.
// Written by index: of what an adapter of `iter_mut` wrote the language knows nothing.
pub fn write_front<T, F: Fn(&T) -> u32>(records: &[T], figure: F, buffer: &mut [u32])
    requires capacity { length records.now ≤ length buffer.old }
    requires callable { F.IsAlwaysCallable figure }
    ensures front { (f : T → ℕ) → ((x : T) (r : ℕ) → FnReturnsAt F.Fn figure x r → r ≡ f x) → take (length records.now) buffer.new ≡ map f records.now }
    ensures rest { drop (length records.now) buffer.new ≡ drop (length records.now) buffer.old }
{
    for (i, one) in records.iter().enumerate() {
        buffer[i] = figure(one);
    }
}

// The sum of figures that 32 bits hold; `cutting::total` widens each. One for both would need a trait for the widening.
pub fn total(figures: &[u32]) -> u32
    requires { sum figures.now < 2 ^ 32 }
    ensures { result ≡ sum figures.now }
{
    figures.iter().sum()
}

// What the programs `layout` and `explain` print of an input, which holds settings and a sheet: the layout of each table, or why its columns are as wide as
// they are and which entries are missing. The format is our own: the Rust has no counterpart.
#![tactic(auto)]

mod each; // each.rt: each table of a walked sheet

ghost use Rattle.std.specs.Prelude.{◌≤◌, length};
ghost use Rattle.common.specs.Limits.{max_size};
ghost use Rattle.report.specs.inner.Read.{WalkNarrow, AsGiven};

use arguments::Settings;
use common::{MAX_ENTRIES, MAX_LINES, MAX_POSITION, Refusal};
use settings::Given;
use table_text::lines::Listing;
use width_walk::{Measured, Scratch};

// Settings take at most 28 bytes, so a full buffer holds a sheet that is too long.
const INPUT_BYTES: usize = 65565;

// The descriptor of standard input. replay has its own: the two programs share no crate for it.
const STANDARD_INPUT: i32 = 0;

// What is printed of a table: its layout, or what explains it. A switch and no type parameter: eight functions would carry it for one `match`.
#[derive(Clone, Copy)]
pub enum Form {
    Layout,
    Explain,
}

// What is asked for of a table: the form, and the two settings that a measured table is laid out at. The width is the one that the walk gives it.
#[derive(Clone, Copy)]
pub struct Asked {
    pub form: Form,
    pub raw: u32,
    pub width: u32,
    pub ghost width_bound: { width ≤ max_size },
}

// A measured sheet and the width of each of its lines, if it has one: tables can be laid out at these.
#[derive(Clone, Copy)]
pub struct Walked<'a> {
    pub measured: Measured<'a>,
    pub widths: &'a [Option<u32>],
    pub ghost narrow: { WalkNarrow (length measured.lines.now) widths.now },
}

// Puts every table of a walked sheet. All tables are laid out in the same arrays, which pacing makes likewise: no function can hand out slices of its own
// arrays, and a struct that owned them would fix their lengths, where `Scratch` takes slices of any length that do.
fn laid(out: &mut Listing<'_>, form: Form, raw: u32, w: Walked<'_>) {
    let mut entries = [records::NO_ENTRY; MAX_ENTRIES];
    let mut rows = [records::NO_ROW; MAX_LINES];
    let mut column = [0u32; MAX_POSITION];
    let mut x = [0u32; MAX_ENTRIES];
    let mut wide = [0u32; MAX_ENTRIES];
    let mut s = Scratch {
        entries: &mut entries,
        rows: &mut rows,
        column: &mut column,
        x: &mut x,
        wide: &mut wide,
    };
    each::all_tables(out, form, raw, w, &mut s);
}

// Puts every table of a sheet at the width that the walk gives it, unless the sheet is refused. The sheet is read, measured and walked once, however many
// tables it has; no width overflows.
// The arrays are declared here: no function can hand out slices of its own.
fn opened(
    out: &mut Listing<'_>,
    sheet: &[u8],
    form: Form,
    settings: Settings,
) -> Result<(), Refusal> {
    let mut kept = [records::NO_NODE; MAX_LINES];
    let mut figures = [estimates::NONE; MAX_LINES];
    let mut walk = [None; MAX_LINES];
    let mut leasts = [0u32; MAX_POSITION];
    let n = sheet_walk::walk_sheet(
        sheet,
        None,
        settings,
        &mut kept,
        &mut figures,
        &mut walk,
        &mut leasts,
    )?;
    let measured = Measured {
        lines: &kept[..n],
        figures: &figures,
    };
    let w = Walked {
        measured,
        widths: &walk,
    };
    laid(out, form, settings.raw, w);
    Ok(())
}

// The settings of a walk, as an input gives them; no width overflows. A function, so that a contract says which setting stands where.
fn asked_of(given: Given) -> Settings
    requires { given.width ≤ max_size }
    ensures { AsGiven given result }
{
    Settings {
        wrap: given.wrap,
        raw: given.raw,
        width: given.width,
        overflow: 0,
    }
}

// Puts what is printed of an input, settings and sheet, unless it is refused.
// This and `answer` are like `accepted` and `answers` of answering: neither crate stands on the other.
#[tactic(auto, using(settings::proofs::Bounds::settings_in_range))]
fn accepted(out: &mut Listing<'_>, input: &[u8], form: Form) -> Result<(), Refusal> {
    let given = settings::settings(input)?;
    opened(out, &input[given.sheet..], form, asked_of(given))
}

// Puts what is printed of an input, or why it is refused. What no longer fits the buffer is written to standard output on the way.
pub fn answer(out: &mut Listing<'_>, input: &[u8], form: Form) {
    if let Err(why) = accepted(out, input, form) {
        table_text::refusal(out, why);
    }
}

// Reads an input from standard input, settings and sheet, and writes what is printed of it to standard output.
// `main` of replay is alike: neither crate stands on the other.
pub fn run(form: Form) {
    let mut input = [0u8; INPUT_BYTES];
    let mut buffer = io::large_buffer();
    let mut out = Listing::new(&mut buffer);
    let n = io::read_full(STANDARD_INPUT, &mut input);
    answer(&mut out, &input[..n], form);
    out.output.flush();
}

// Each table of a walked sheet, laid out and printed.
// `as` where a place or a number of columns is known to fit 32 bits: a `TryFrom` would never fail.
ghost use Rattle.std.specs.Prelude.{◌≡◌, ◌≤◌, length};
ghost use Rattle.common.specs.Limits.{max_size};
ghost use Rattle.causes.specs.inner.Tables.{ExplainPre};
ghost use Rattle.report.specs.inner.Read.{TableAt};

use super::{Asked, Form, Walked};
use answers::Way;
use grid_build::Records;
use kinds::Kind;
use table_layout::MeasuredTable;
use table_text::entries::Entries;
use table_text::lines::Listing;
use text::Estimate;
use width_walk::{Measured, Scratch};

// Puts what is asked for of a table that is laid out. An explanation prints no places of entries: it takes their room.
fn shown(
    out: &mut Listing<'_>,
    asked: Asked,
    way: Way,
    figures: &[Estimate],
    grid: Records<'_>,
    column: &[u32],
    x: &mut [u32],
    wide: &mut [u32],
)
    requires explainable { ExplainPre grid.entries.now figures.now grid.columns x.old }
    requires cause_in { grid.columns ≤ length wide.old }
{
    match asked.form {
        Form::Layout => {
            let entries = Entries {
                rows: grid.rows,
                grid: grid.entries,
                start: x,
                extent: wide,
            };
            table_text::tables::cells(out, column, entries);
        }
        Form::Explain => report_causes::put_table(
            out,
            way,
            asked.raw,
            asked.width,
            figures,
            grid,
            column,
            x,
            wide,
        ),
    }
}

// Puts the table at a place. The sheet is accepted, so none of its tables is refused.
fn table(out: &mut Listing<'_>, place: usize, asked: Asked, m: Measured<'_>, s: &mut Scratch<'_>)
    requires { TableAt m.lines.now place }
{
    let t = MeasuredTable {
        lines: m.lines,
        figures: m.figures,
        at: place,
    };
    let arranged = table_layout::arrange(
        t,
        asked.raw,
        asked.width,
        s.entries,
        s.rows,
        s.column,
        s.x,
        s.wide,
    );
    let counts = arranged.counts;
    let laid = arranged.laid;
    let line = (place + 1) as u32;
    table_text::tables::heading(out, line, laid.way, counts.columns as u32, laid.width);
    shown(
        out,
        asked,
        laid.way,
        m.figures,
        counts.records(s.entries, s.rows),
        &s.column[..counts.columns],
        s.x,
        s.wide,
    );
}

// What is asked for of a table at the width that the walk gives it. A function, so that a contract says which number stands where.
fn asked_at(form: Form, raw: u32, width: u32) -> Asked
    requires { width ≤ max_size }
    ensures { (result.form ≡ form) × (result.raw ≡ raw) × (result.width ≡ width) }
{
    Asked { form, raw, width }
}

// Puts the table at a place, at the width that the walk gives it; if it gives none, nothing.
fn walked_table(
    out: &mut Listing<'_>,
    place: usize,
    form: Form,
    raw: u32,
    w: Walked<'_>,
    s: &mut Scratch<'_>,
)
    requires { TableAt w.measured.lines.now place }
{
    let Some(width) = w.widths[place] else {
        return;
    };
    table(out, place, asked_at(form, raw, width), w.measured, s);
}

// Puts every table of a sheet that has a width, in the order of their lines. Every table is laid out in the same scratch, of which nothing is cleared in
// between.
pub fn all_tables(out: &mut Listing<'_>, form: Form, raw: u32, w: Walked<'_>, s: &mut Scratch<'_>) {
    for (i, line) in w.measured.lines.iter().enumerate() {
        if line.kind == Kind::Table {
            walked_table(out, i, form, raw, w, s);
        }
    }
}

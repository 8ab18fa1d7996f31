// What the public calls answer for an input, which holds settings and a sheet, so that a program can print it: the layouts as `layout` prints
// them, the estimates of all lines and each table's grid. The format is our own: the Rust has no counterpart.
#![tactic(auto)]

mod calls; // calls.rt: what the calls answer of a sheet and of each table

use calls::{each_table, estimates, grid, layout};
use common::{MAX_LINES, Refusal};
use settings::Given;
use table_text::lines::Listing;

// Puts the layouts, the estimates and the grids of a sheet that is accepted. Its lines tell which are tables.
#[tactic(auto, using(sheet::proofs::Bounds::accepted_lines))]
fn listed(out: &mut Listing<'_>, sheet: &[u8], given: Given) -> Result<(), Refusal> {
    call_estimates::check(sheet)?;
    let mut kept = [records::NO_NODE; MAX_LINES];
    let n = sheet_load::read_sheet(sheet, &mut kept)?;
    let lines = &kept[..n];
    each_table(out, lines, |out, line| layout(out, sheet, line, given));
    estimates(out, sheet, given.wrap);
    each_table(out, lines, |out, line| grid(out, sheet, line));
    Ok(())
}

// The same of an input, which holds settings and a sheet.
// This and `answers` are like `accepted` and `answer` of report: neither crate stands on the other.
#[tactic(auto, using(settings::proofs::Bounds::settings_in_range))]
fn accepted(out: &mut Listing<'_>, input: &[u8]) -> Result<(), Refusal> {
    let given = settings::settings(input)?;
    listed(out, &input[given.sheet..], given)
}

// Puts what the public calls answer for an input: the layouts as `layout` prints them, the estimates of all lines and each table's grid; or why it is refused.
pub fn answers(out: &mut Listing<'_>, input: &[u8]) {
    if let Err(why) = accepted(out, input) {
        table_text::refusal(out, why);
    }
}

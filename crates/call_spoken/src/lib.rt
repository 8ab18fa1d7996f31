// The call `spoken`: the text that is spoken at a filler, as a part of the sheet or of the wording that the caller lends. Nothing is measured, and
// nothing is copied: the reply is a part of one of the two.
// `as` where an entry, a line or a place becomes a `usize`, for which there is no `From`.
#![tactic(auto)]

ghost use Rattle.std.specs.Prelude.{◌≡◌, ◌+◌, ◌≤◌, length, take, drop};
ghost use Rattle.resolved_rows.specs.Listed.{table_rows};
ghost use Rattle.grid.specs.Grid.{grid_of, entries_of};
ghost use Rattle.grid_build.specs.inner.Records.{TableReady};
ghost use Rattle.owners.specs.Owner.{filler_owner};
ghost use Rattle.call_spoken.specs.Spoken.{place_of, reply, SpokenAnswer, SpeaksText};
ghost use Rattle.call_spoken.specs.inner.Found.{PartInside};

use answers::Part;
use common::{MAX_ENTRIES, MAX_LINES, Reason, Refusal};
use records::{Entry, NodeRecord, RowEnd};

// The line of the cell that an entry of the table at a place continues, if it is a filler. The grid of the table is made in lent records.
fn owner_of(
    lines: &[NodeRecord],
    at: usize,
    entry: u32,
    entries: &mut [Entry],
    rows: &mut [RowEnd],
) -> Option<u32>
    requires { TableReady lines.now at entries.old rows.old }
    ensures { result ≡ filler_owner (entries_of (grid_of (table_rows lines.now at))) entry }
{
    let counts = grid_plain::make(lines, at, entries, rows);
    let grid = counts.records(entries, rows);
    owners::filler_owner(lines, at, grid, entry as usize)
}

// Where the reply stands: in the sheet, or none where it is the whole wording. 10 comes again, last, for an entry that is no filler.
pub fn spoken_place(sheet: &[u8], line: u32, entry: u32) -> Result<Option<Part>, Refusal>
    ensures { result ≡ place_of sheet.now line entry }
{
    let mut lines = [records::NO_NODE; MAX_LINES];
    let mut scratch = [0; MAX_LINES];
    let mut entries = [records::NO_ENTRY; MAX_ENTRIES];
    let mut rows = [records::NO_ROW; MAX_LINES];
    let n = sheet_load::open_sheet(sheet, Some(line), &mut lines, &mut scratch)?;
    let at = (line - 1) as usize;
    let owner = owner_of(&lines[..n], at, entry, &mut entries, &mut rows);
    let c = owner.ok_or(Reason::NoTable.at(0))?;
    Ok(spoken_text::spoken_part(sheet, &lines[..n], c))
}

// The bytes of a part of the sheet.
fn bytes_of<'a>(sheet: &'a [u8], part: Part) -> &'a [u8]
    requires { part.from + part.length ≤ length sheet.now }
    ensures { result.now ≡ take part.length (drop part.from sheet.now) }
{
    let from = part.from as usize;
    let to = from + part.length as usize;
    &sheet[from..to]
}

// The reply, by where it stands.
pub fn reply<'a>(
    sheet: &'a [u8],
    wording: &'a [u8],
    place: Result<Option<Part>, Refusal>,
) -> &'a [u8]
    requires { PartInside sheet.now place }
    ensures { result.now ≡ reply sheet.now wording.now place }
{
    match place {
        Ok(Some(part)) => bytes_of(sheet, part),
        Ok(None) => wording,
        Err(_) => &wording[..0],
    }
}

// The text that is spoken at an entry of the table in a line: the whole text of the first text inside the cell that the filler continues, or the
// whole wording where there is none, or an empty one. Refused, an empty part of the wording: so the verdict is written beside what is returned.
pub fn spoken<'a>(
    sheet: &'a [u8],
    line: u32,
    entry: u32,
    wording: &'a [u8],
    verdict: &mut Result<(), Refusal>,
) -> &'a [u8]
    ensures answer { SpokenAnswer sheet.now line entry wording.now result.now verdict.new }
    ensures whole { SpeaksText sheet.now line entry result.now }
{
    let place = spoken_place(sheet, line, entry);
    *verdict = place.map(|_| ());
    reply(sheet, wording, place)
}

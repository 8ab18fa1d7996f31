// The call `joined_spoken`: the text that is spoken at a filler of the joined grid, as a part of the sheet or of the wording that the caller lends.
// The joined grid itself is not made: its entries are counted, and the one that is asked for is found in the grids of the two tables.
// `as` to a `u32` where a place is known to fit 32 bits: a `TryFrom` would never fail.
ghost use Rattle.std.specs.Prelude.{◌≡◌};
ghost use Rattle.spoken_text.specs.Text.{text_inside, part_for};
ghost use Rattle.joined_tables.specs.Side.{Tables};
ghost use Rattle.joined_tables.specs.inner.Joining.{RecordCapacity};
ghost use Rattle.joined_owners.specs.inner.Places.{JoinedOwnerPre};
ghost use Rattle.call_joined.specs.Joined.{joined_place_of, JoinedSpokenAnswer};
ghost use Rattle.call_joined.specs.inner.Speaking.{owner_answer, PartOfPre};

use answers::Part;
use common::{MAX_ENTRIES, MAX_LINES, MAX_POSITION, Reason, Refusal};
use grid_build::Records;
use records::{Entry, NodeRecord, RowEnd};

// The line of the cell that an entry of the joined grid continues, if it is a filler, unless 5 or 6 applies to the joined grid.
fn owner_in(
    lines: &[NodeRecord],
    l: usize,
    r: usize,
    left: Records<'_>,
    right: Records<'_>,
    entry: u32,
) -> Result<Option<u32>, Refusal>
    requires { JoinedOwnerPre lines.now l r left.entries.now left.rows.now left.columns right.entries.now right.rows.now right.columns }
    ensures { result ≡ owner_answer lines.now l r entry }
{
    let line = (l + 1) as u32;
    if left.columns + right.columns > MAX_POSITION {
        return Err(Reason::RowEnd.at(line));
    }
    if grid_join::count(left, right) > MAX_ENTRIES {
        return Err(Reason::TooManyEntries.at(line));
    }
    Ok(joined_owners::joined_owner(lines, l, r, left, right, entry as usize))
}

// The same, with the grids of both tables made in lent records.
fn owner_of(
    lines: &[NodeRecord],
    l: usize,
    r: usize,
    entry: u32,
    left: &mut [Entry],
    left_rows: &mut [RowEnd],
    right: &mut [Entry],
    right_rows: &mut [RowEnd],
) -> Result<Option<u32>, Refusal>
    requires tables { Tables lines.now l r }
    requires left_capacity { RecordCapacity left.old left_rows.old }
    requires right_capacity { RecordCapacity right.old right_rows.old }
    ensures { result ≡ owner_answer lines.now l r entry }
{
    let a = grid_plain::make(lines, l, left, left_rows);
    let b = grid_plain::make(lines, r, right, right_rows);
    owner_in(
        lines,
        l,
        r,
        a.records(left, left_rows),
        b.records(right, right_rows),
        entry,
    )
}

// The part of the sheet that is spoken for an owner: an empty entry has none, and is spoken with the wording.
fn part_of(sheet: &[u8], lines: &[NodeRecord], owner: u32) -> Option<Part>
    requires { PartOfPre sheet.now lines.now owner }
    ensures { result ≡ part_for (text_inside lines.now owner) sheet.now }
{
    if owner == 0 {
        return None;
    }
    spoken_text::spoken_part(sheet, lines, owner)
}

// Where the reply stands: in the sheet, or none where it is the whole wording. 10 comes again, last, for an entry that is no filler.
pub fn joined_place(
    sheet: &[u8],
    left: u32,
    right: u32,
    entry: u32,
) -> Result<Option<Part>, Refusal>
    ensures { result ≡ joined_place_of sheet.now left right entry }
{
    let mut lines = [records::NO_NODE; MAX_LINES];
    let mut scratch = [0; MAX_LINES];
    let mut left_entries = [records::NO_ENTRY; MAX_ENTRIES];
    let mut left_rows = [records::NO_ROW; MAX_LINES];
    let mut right_entries = [records::NO_ENTRY; MAX_ENTRIES];
    let mut right_rows = [records::NO_ROW; MAX_LINES];
    let n = sheet_load::open_two(sheet, left, right, &mut lines, &mut scratch)?;
    let found = owner_of(
        &lines[..n],
        (left - 1) as usize,
        (right - 1) as usize,
        entry,
        &mut left_entries,
        &mut left_rows,
        &mut right_entries,
        &mut right_rows,
    )?;
    let owner = found.ok_or(Reason::NoTable.at(0))?;
    Ok(part_of(sheet, &lines[..n], owner))
}

// The text that is spoken at an entry of the joined grid of the tables in two lines, as `spoken` has it. Refused, an empty part of the wording: so
// the verdict is written beside what is returned.
pub fn joined_spoken<'a>(
    sheet: &'a [u8],
    left: u32,
    right: u32,
    entry: u32,
    wording: &'a [u8],
    verdict: &mut Result<(), Refusal>,
) -> &'a [u8]
    ensures { JoinedSpokenAnswer sheet.now left right entry wording.now result.now verdict.new }
{
    let place = joined_place(sheet, left, right, entry);
    *verdict = place.map(|_| ());
    call_spoken::reply(sheet, wording, place)
}

// The sheet reader: a whole sheet, line by line, into a slice of records.
// The bytes and a place in them are two parameters but in cursor.rt, as in fields: the place where the next line starts goes into the answer.
// `AtLine` is asked in four contracts: a type that holds it would be made and opened again at each call (docs/DESIGN-PASS.md).
// The lines are filled from the front of their slice, beside a count: a `Vec` needs a heap.
// `as` where a depth, a span or a line's place is known to fit the other type, or a depth becomes a place: a `TryFrom` would never fail.
#![tactic(auto)]

pub mod front; // front.rt: what is asked of a sheet before its lines
pub mod nesting; // nesting.rt: what may stand below what
pub mod cursor; // cursor.rt: a record that holds the sheet and the current place

ghost use Rattle.std.specs.Prelude.{◌≡◌, true, false, ◌-◌, ◌≤◌, ◌<◌, length, get_or};
ghost use Rattle.common.specs.Limits.{max_lines, max_depth};
ghost use Rattle.records.specs.NodeRecord.{no_node};
ghost use Rattle.records.specs.inner.NodeRecord.{InRanges};
ghost use Rattle.line.specs.inner.LineAt.{line_at};
ghost use Rattle.line_fast.specs.inner.Briefs.{figures_of, BriefPost};
ghost use Rattle.sheet.specs.inner.Reading.{Reads};
ghost use Rattle.sheet.specs.inner.Steps.{AtLine, nesting_checked, Answers, empty_at, lacks_child, FinishPre, line_end, bare, ReadLinesPre, line_bound};

use common::{DEPTHS, Reason, Refusal};
use fields::Scanned;
use kinds::Kind;
use line::Node;
use records::NodeRecord;
use text::bytes::Classes;

// What is kept of a line, and where the next one starts. No `From`: it asks that the line's depth and spans are in their ranges.
fn brief(node: Node) -> Scanned<NodeRecord>
    requires { InRanges (figures_of node) }
    ensures { BriefPost node result }
{
    Scanned {
        value: NodeRecord {
            depth: node.depth as u8,
            kind: node.kind,
            cols: node.cols as u16,
            rows: node.rows as u16,
            number: node.number,
            own: node.own,
        },
        next: node.next,
    }
}

// The line that starts at a place, by itself: 2, 3, 13, 14. The commonest lines are recognized by few comparisons.
fn line_of(classes: &Classes, bytes: &[u8], at: usize) -> Result<Scanned<NodeRecord>, Reason>
    requires { AtLine bytes.now at }
    ensures { Answers (line_at bytes.now at) result }
{
    if let Some(b) = line_fast::common_line(classes, bytes, at) {
        return Ok(b);
    }
    let node = cursor::line_from(classes, bytes, at)?;
    Ok(brief(node))
}

// The line that starts at a place, judged after the lines before it: 2, 3, 13, 14, 4. chain, lines and previous are those of `breaks_nesting`: a struct
// of the three would be made anew for each line.
fn check_line(
    classes: &Classes,
    bytes: &[u8],
    at: usize,
    chain: &[Kind; DEPTHS],
    lines: usize,
    previous: u32,
) -> Result<Scanned<NodeRecord>, Reason>
    requires at_line { AtLine bytes.now at }
    requires previous_le_max_depth { previous ≤ max_depth }
    ensures { Answers (nesting_checked chain.now lines previous (line_at bytes.now at)) result }
{
    let b = line_of(classes, bytes, at)?;
    if nesting::misplaced(
        chain,
        lines,
        previous,
        u32::from(b.value.depth),
        b.value.kind,
    ) {
        return Err(Reason::Nesting);
    }
    Ok(b)
}

// Whether a line is a table or a body and the next line is no deeper.
fn lacks_child(here: NodeRecord, next: NodeRecord) -> bool
    ensures { result ≡ lacks_child here next }
{
    nesting::needs_child(here.kind) && next.depth <= here.depth
}

// Whether the line at place i is a table or a body without a child: no line one deeper follows it.
#[tactic(auto, unfolding(crate::specs::inner::Steps::empty_at))]
fn left_empty_at(lines: &[NodeRecord], i: usize) -> bool
    requires { i < length lines.now }
    ensures { result ≡ empty_at lines.now i }
{
    match lines.get(i + 1) {
        Some(next) => lacks_child(lines[i], *next),
        None => nesting::needs_child(lines[i].kind),
    }
}

// Whether no table and no body is seen to be left empty, where none was before the last of the first n lines, and one more line follows.
fn still_filled(filled: bool, lines: &[NodeRecord], n: usize, next: NodeRecord) -> bool
    requires { n ≤ length lines.now }
    ensures { result ≡ true → (filled ≡ true) × (0 < n → lacks_child (get_or lines.now (n - 1) no_node) next ≡ false) }
{
    filled
        && !lines[..n]
            .last()
            .is_some_and(|last| lacks_child(*last, next))
}

// What is asked after the lines: 4 for no line, or for the first table or body left empty. In most sheets there is none, which is seen at once.
fn finish(lines: &[NodeRecord], filled: bool) -> Result<usize, Refusal>
    requires lines_len_bound { length lines.now ≤ max_lines }
    requires none_lacking { filled ≡ true → FinishPre lines.now (length lines.now) }
    ensures { result ≡ line_end (bare lines.now) }
{
    let Some(last) = lines.last() else {
        return Err(Reason::Nesting.at(0));
    };
    if filled && !nesting::needs_child(last.kind) {
        return Ok(lines.len());
    }
    // By its place: the line after it is asked too. A `find` over the places would hold the same test in a closure.
    for i in 0..lines.len() {
        if left_empty_at(lines, i) {
            return Err(Reason::Nesting.at((i + 1) as u32));
        }
    }
    Ok(lines.len())
}

// Reads the lines of a sheet that begins as it should.
fn read_lines(classes: &Classes, bytes: &[u8], lines: &mut [NodeRecord]) -> Result<usize, Refusal>
    requires begun { ReadLinesPre bytes.now }
    requires bytes_bound { line_bound bytes.now ≤ length lines.old }
    ensures { Reads bytes.now result lines.new }
{
    // the kind of the last line of each depth, which is all that the nesting of a line asks of those before it, and the last depth
    let mut chain = [Kind::Text; DEPTHS];
    let mut previous: u32 = 0;
    let mut at: usize = front::HEADING.len();
    let mut n: usize = 0;
    let mut filled = true;
    // A while: a turn moves on by the line that it reads.
    while at < bytes.len() {
        // A match: with `map_err` and `?` sheets of texts are read 5 % slower (75 for 71 us, 1,200 cells), since the loop holds more.
        let b = match check_line(classes, bytes, at, &chain, n, previous) {
            Ok(b) => b,
            Err(reason) => return Err(reason.at((n + 1) as u32)),
        };
        previous = u32::from(b.value.depth);
        chain[previous as usize] = b.value.kind;
        at = b.next;
        filled = still_filled(filled, lines, n, b.value);
        lines[n] = b.value;
        n += 1;
    }
    finish(&lines[..n], filled)
}

// Reads a sheet: what each of its lines says, a record for each, and how many there are, or the first refusal that applies. Record k is of line k + 1.
pub fn read(classes: &Classes, bytes: &[u8], lines: &mut [NodeRecord]) -> Result<usize, Refusal>
    requires bytes_bound { line_bound bytes.now ≤ length lines.old }
    ensures { Reads bytes.now result lines.new }
{
    if front::too_long(bytes) {
        return Err(Reason::TooLong.at(0));
    }
    if !front::is_headed(bytes) {
        return Err(Reason::Heading.at(0));
    }
    read_lines(classes, bytes, lines)
}

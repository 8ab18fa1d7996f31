// The text that is spoken for a line of a sheet: that of the first text inside it, and where it stands in the sheet.
// A text is not kept of a line, only its size: the line is read once more, from the place where it starts.
// `as` where a line becomes a `usize`, or a place is known to fit 32 bits: there is no `From`, and a `TryFrom` would never fail.
#![tactic(auto)]

ghost use Rattle.std.specs.Prelude.{◌≡◌, ◌-◌, ◌≤◌, eqb, position, length};
ghost use Rattle.common.specs.Limits.{max_bytes};
ghost use Rattle.fields.specs.Lines.{feed};
ghost use Rattle.spoken_text.specs.Text.{text_inside, text_part, part_for};
ghost use Rattle.spoken_text.specs.inner.Places.{stops, end_of, part_between, LinesPassed, FirstTextPre, TextPartPre, SpokenPartPre};

use answers::Part;
use kinds::Kind;
use records::NodeRecord;
use text::bytes::Classes;

// Whether a line is a text, or no deeper than a line of this depth.
#[tactic(auto, unfolding(crate::specs::inner::Places::stops))]
fn stops(line: NodeRecord, depth: u8) -> bool
    ensures { result ≡ stops depth line }
{
    line.depth <= depth || line.kind == Kind::Text
}

// Where among the lines the first text stands, or before it the first line that is no deeper.
fn text_or_end(lines: &[NodeRecord], depth: u8) -> Option<usize>
    ensures { result ≡ position (stops depth) lines.now }
{
    lines.iter().position(|line| stops(*line, depth))
}

// The first line of kind text inside line c, those of tables in it included.
pub fn first_text(lines: &[NodeRecord], c: u32) -> Option<u32>
    requires { FirstTextPre lines.now c }
    ensures { result ≡ text_inside lines.now c }
{
    let at = c as usize;
    let depth = lines[at - 1].depth;
    let inner = &lines[at..];
    let k = text_or_end(inner, depth)?;
    if inner[k].depth <= depth {
        return None;
    }
    Some((at + k + 1) as u32)
}

// How many bytes stand before the first line feed, if there is one.
fn feed_in(rest: &[u8]) -> Option<usize>
    ensures { result ≡ position (λ b. eqb b feed) rest.now }
{
    rest.iter().position(|b| *b == b'\n')
}

// Where the bytes of the line that starts at a place end.
fn end_of(bytes: &[u8], at: usize) -> usize
    requires { at ≤ length bytes.now }
    ensures { result ≡ end_of bytes.now at }
{
    let rest = &bytes[at..];
    at + feed_in(rest).unwrap_or(rest.len())
}

// Where line k of a sheet starts: after the heading and the lines before it.
fn start_of(sheet: &[u8], k: u32) -> usize
    requires { TextPartPre sheet.now k }
    ensures { LinesPassed sheet.now result (k - 1) }
{
    let mut at = sheet::front::HEADING.len();
    for _ in 1..k {
        at = end_of(sheet, at) + 1;
    }
    at
}

// The part of the sheet between two places, if it is not empty.
fn part_between(from: usize, to: usize) -> Option<Part>
    requires from_le_to { from ≤ to }
    requires to_bound { to ≤ max_bytes }
    ensures { result ≡ part_between from to }
{
    if from == to {
        return None;
    }
    Some(Part {
        from: from as u32,
        length: (to - from) as u32,
    })
}

// The part of the sheet that is the text of line k, if it has one.
pub fn text_part(sheet: &[u8], k: u32) -> Option<Part>
    requires { TextPartPre sheet.now k }
    ensures { result ≡ text_part sheet.now k }
{
    let classes = Classes::new();
    let at = start_of(sheet, k);
    let node = line::line_at(&classes, sheet, at).ok()?;
    part_between(node.from, node.to)
}

// The part of the sheet that is spoken for line c of its lines, if there is one.
pub fn spoken_part(sheet: &[u8], lines: &[NodeRecord], c: u32) -> Option<Part>
    requires { SpokenPartPre sheet.now lines.now c }
    ensures { result ≡ part_for (text_inside lines.now c) sheet.now }
{
    let k = first_text(lines, c)?;
    text_part(sheet, k)
}

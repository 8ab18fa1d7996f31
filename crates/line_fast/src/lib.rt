// The commonest lines of a sheet, recognized by comparing eight bytes at once, in the form in which lines are kept. Every other line is left to the
// crate line, which reads all.
// The bytes and a place in them are two parameters, as in fields: the place where the next line starts goes into the answer. That a place lies in the
// bytes is asked where it is read, of other parameters each time.
// `as` where cols and rows are known to be at most 9: a `TryFrom` would never fail.
#![tactic(auto)]

ghost use Rattle.std.specs.Prelude.{◌≡◌, ◌+◌, ◌≤◌, IfSome, length, Some};
ghost use Rattle.common.specs.Limits.{max_bytes};
ghost use Rattle.line_fast.specs.inner.Briefs.{Brief, Tells};
ghost use Rattle.line_fast.specs.inner.Bytes.{DepthPost, BareLinePost, CellLinePost, TextLinePost};

use fields::Scanned;
use kinds::Kind;
use records::NodeRecord;
use text::bytes::Classes;

// What ends a line without figures.
const ZEROS: [u8; 8] = *b" 0 0 0 \n";

// What 1 more in the byte of cols adds to those eight.
const COLS_STEP: u64 = 0x0100_0000;

// What 1 more in the byte of rows adds to the count of the former.
const ROWS_STEP: u64 = 0x1_0000;

// The bytes of ` table 0 0 0 ` with a depth of two digits and its line feed, the longest of these without a text.
const LONGEST: usize = 16;

// A line without a text. The space before its n stands at a place, and the line ends seven bytes on, if n, cols and rows are 0.
fn bare_line(bytes: &[u8], depth: u8, kind: Kind, at: usize) -> Option<Scanned<NodeRecord>>
    requires { at + 8 ≤ length bytes.now }
    ensures { (b : Brief) → result ≡ Some b → BareLinePost bytes.now at depth kind b }
{
    if swar::eight(bytes, at) != u64::from_le_bytes(ZEROS) {
        return None;
    }
    Some(Scanned {
        value: NodeRecord::bare(depth, kind),
        next: at + 8,
    })
}

// A cell whose cols and rows have one digit: the eight bytes from the space before its n, which stands at a place, differ from ` 0 0 0 ` and a line feed in
// these digits alone.
fn cell_line(bytes: &[u8], depth: u8, at: usize) -> Option<Scanned<NodeRecord>>
    requires { at + 8 ≤ length bytes.now }
    ensures { (b : Brief) → result ≡ Some b → CellLinePost bytes.now at depth b }
{
    let end = swar::eight(bytes, at);
    let zeros = u64::from_le_bytes(ZEROS);
    if end < zeros {
        return None;
    }
    let more = end - zeros;
    let cols = more / COLS_STEP % ROWS_STEP;
    let rows = more / COLS_STEP / ROWS_STEP;
    if more % COLS_STEP != 0 || cols > 9 || rows > 9 {
        return None;
    }
    Some(Scanned {
        value: NodeRecord::cell(depth, cols as u16, rows as u16),
        next: at + 8,
    })
}

// A text, which starts at a place.
fn text_line(classes: &Classes, bytes: &[u8], depth: u8, from: usize) -> Option<Scanned<NodeRecord>>
    requires bytes_len_bound { length bytes.now ≤ max_bytes }
    requires from_in_bounds { from ≤ length bytes.now }
    ensures { (b : Brief) → result ≡ Some b → TextLinePost bytes.now from depth b }
{
    let front = text::scan_front(classes, bytes, from, b'\n');
    let to = front.end;
    if bytes.get(to) != Some(&b'\n') {
        return None;
    }
    Some(Scanned {
        value: NodeRecord::text(depth, front.size),
        next: to + 1,
    })
}

// The depth at a place, of one digit or two, and the place after its digits.
fn depth_at(bytes: &[u8], at: usize) -> Option<Scanned<u8>>
    ensures { IfSome result (λ d. DepthPost bytes.now at d.next d.value) }
{
    let rest = bytes.get(at..)?;
    if rest.len() < LONGEST {
        return None;
    }
    let [first @ b'0'..=b'9', second, ..] = rest else {
        return None;
    };
    let ones = *first - b'0';
    if !second.is_ascii_digit() {
        return Some(Scanned {
            value: ones,
            next: at + 1,
        });
    }
    let value = ones * 10 + (*second - b'0');
    if ones == 0 || u32::from(value) > common::MAX_DEPTH {
        return None;
    }
    Some(Scanned {
        value,
        next: at + 2,
    })
}

// The line at a place, if it is one of the commonest. The eight bytes after its depth tell a kind: the compiled code takes them as one number.
pub fn common_line(classes: &Classes, bytes: &[u8], at: usize) -> Option<Scanned<NodeRecord>>
    requires bytes_len_bound { length bytes.now ≤ max_bytes }
    ensures { Tells bytes.now at result }
{
    let Scanned {
        value: depth,
        next: after,
    } = depth_at(bytes, at)?;
    let front = swar::eight(bytes, after);
    // Not a match: the commonest front is compared first.
    if front == u64::from_le_bytes(*b" cell 0 ") {
        return cell_line(bytes, depth, after + 5);
    }
    if front == u64::from_le_bytes(*b" text 0 ") {
        if swar::eight(bytes, after + 4) != u64::from_le_bytes(*b"t 0 0 0 ") {
            return None;
        }
        return text_line(classes, bytes, depth, after + 12);
    }
    if front == u64::from_le_bytes(*b" row 0 0") {
        return bare_line(bytes, depth, Kind::Row, after + 4);
    }
    if front == u64::from_le_bytes(*b" body 0 ") {
        return bare_line(bytes, depth, Kind::Body, after + 5);
    }
    if front == u64::from_le_bytes(*b" table 0") {
        return bare_line(bytes, depth, Kind::Table, after + 6);
    }
    None
}

// Reads cases from standard input, each of them settings and a sheet as the program `layout` takes them, and prints for each what that
// program prints, and the figures that a layout is made from. A case stands in a frame: `case LENGTH`, a line feed, so many bytes.
#![tactic(auto)]

ghost use Rattle.std.specs.Prelude.{◌≡◌, ◌≤◌, ◌<◌, length, IfSome};

use fields::numbers::digits_in;
use fields::places::field_at;
use table_text::lines::Listing;

// The descriptor of standard input.
const STANDARD_INPUT: i32 = 0;

const INPUT_BYTES: usize = 1048576;

// The bytes of the first case of an input, and those after it; none where no whole frame stands there.
// Not by `written_in` of fields: that refuses leading zeros, which are taken here. `as` for the size: it is at most that of the whole input.
fn first_case(input: &[u8]) -> Option<(&[u8], &[u8])>
    ensures { IfSome result (λ r. length r.1.now < length input.now) }
{
    let framed = input.strip_prefix(b"case ")?;
    let field = field_at(framed, 0, b'\n')?;
    let size = digits_in(field, INPUT_BYTES as u32)?;
    framed[field.len() + 1..].split_at_checked(size as usize)
}

// Puts the number of a case and what is listed of it.
fn case_listed(out: &mut Listing<'_>, number: u32, case: &[u8]) {
    out.words(b"case ");
    out.number(number);
    out.words(b"\n");
    replay_answers::answers(out, case);
}

// Puts what is listed of each case, up to the end of the input or the first malformed frame.
fn cases(out: &mut Listing<'_>, input: &[u8])
    requires { length input.now ≤ 1048576 }
{
    let mut rest = input;
    let mut number = 1u32;
    // A while: a turn moves on by the length of its case.
    while let Some((case, after)) = first_case(rest) {
        case_listed(out, number, case);
        rest = after;
        number += 1;
    }
}

// Zeros for the whole input. The contract gives the length alone: a list of so many zeros is too long to look at.
fn input_buffer() -> [u8; INPUT_BYTES]
    ensures { 1048576 ≡ length result }
{
    [0; INPUT_BYTES]
}

// `run` of report is alike: neither crate stands on the other.
fn main() {
    let mut input = input_buffer();
    let mut buffer = io::large_buffer();
    let mut out = Listing::new(&mut buffer);
    let n = io::read_full(STANDARD_INPUT, &mut input);
    cases(&mut out, &input[..n]);
    out.output.flush();
}

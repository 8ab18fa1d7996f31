// Sums in a cell: a text is read once, from its first byte to its last, and its value is worked out on the way.
#![tactic(auto)]

ghost use Rattle.std.specs.Prelude.{◌≡◌, ◌≤◌, unsigned_abs};
ghost use Rattle.expression.specs.Tree.{limit};
ghost use Rattle.expression.specs.Grammar.{digit};
ghost use Rattle.expression.specs.Machine.{have, operator as operator_of, total as total_by};
ghost use Rattle.expression.specs.Answers.{values, answer_by, answer_of};
ghost use Rattle.evaluator.specs.Measures.{measure_of};
ghost use Rattle.evaluator.specs.inner.Measures.{Length};
ghost use Rattle.evaluator.specs.inner.Waiting.{onto_of, place_of, waiting_in, opening_at, end_at, Small, SteppedPost};

use common::Reason;
use expression::{Op, joined};

// The brackets that may be open at once.
const DEEP: usize = 32;

// What waits before a number: a result and an operator.
type Before = (Option<i64>, Op);

// What waits before a term, and before a factor; none where nothing does.
#[derive(Clone, Copy)]
struct Frame {
    pub sum: Option<Before>,
    pub product: Option<Before>,
}

// Within the innermost open bracket: not to be read; a factor has to come; a number of so many digits so far; a factor has come.
// `Wrong` is a case and no `None` around it, as the definition has it (`Machine`).
#[derive(Clone, Copy)]
enum Top {
    Wrong,
    Want(Frame),
    Within(u32, u32, Frame),
    Have(Option<Before>, Option<i64>),
}

// A number put onto what waits before it.
fn onto(b: Option<Before>, x: Option<i64>) -> Option<i64>
    ensures { result ≡ onto_of b x }
{
    match b {
        None => x,
        Some((a, o)) => joined(o, a, x),
    }
}

// An operator after a factor.
#[tactic(auto, unfolding(expression::specs::Machine::operator))]
fn operator(c: u8, sum: Option<Before>, p: Option<i64>) -> Top
    ensures result_value { place_of result ≡ operator_of values c (onto_of sum) p }
    ensures small { Small result }
{
    let (sum, product) = match c {
        b'*' => (sum, Some((p, Op::Times))),
        b'/' => (sum, Some((p, Op::Over))),
        b'+' => (Some((onto(sum, p), Op::Plus)), None),
        b'-' => (Some((onto(sum, p), Op::Minus)), None),
        _ => return Top::Wrong,
    };
    Top::Want(Frame { sum, product })
}

// A byte that is no bracket.
fn stepped(c: u8, t: Top) -> Top
    requires { Small t }
    ensures { SteppedPost c t result }
{
    match t {
        Top::Wrong => Top::Wrong,
        Top::Want(f) => {
            if c.is_ascii_digit() {
                return Top::Within(1, u32::from(c - b'0'), f);
            }
            Top::Wrong
        }
        Top::Within(n, v, f) => {
            if c.is_ascii_digit() {
                if n < 9 {
                    return Top::Within(n + 1, 10 * v + u32::from(c - b'0'), f);
                }
                return Top::Wrong;
            }
            operator(c, f.sum, onto(f.product, Some(i64::from(v))))
        }
        Top::Have(sum, p) => operator(c, sum, p),
    }
}

// The result of what stands within the innermost bracket, if it may end here.
#[tactic(auto, unfolding(expression::specs::Machine::total))]
fn total(t: Top) -> Option<Option<i64>>
    ensures { result ≡ total_by values (place_of t) }
{
    match t {
        Top::Wrong | Top::Want(_) => None,
        Top::Within(_, v, f) => Some(onto(f.sum, onto(f.product, Some(i64::from(v))))),
        Top::Have(sum, p) => Some(onto(sum, p)),
    }
}

// What waits, if a bracket may open here, within so many others: where a factor has to come.
#[tactic(auto, unfolding(expression::specs::Machine::wanted, crate::specs::inner::Waiting::opening_at))]
fn opening(t: Top, depth: usize) -> Option<Frame>
    ensures { waiting_in result ≡ opening_at depth (place_of t) }
{
    match t {
        Top::Want(f) if depth < DEEP => Some(f),
        _ => None,
    }
}

// A bracket that closes is a factor of what waits outside it.
fn resumed(f: Frame, x: Option<i64>) -> Top
    ensures result_value { place_of result ≡ have (onto_of f.sum) (onto_of f.product x) }
    ensures small { Small result }
{
    Top::Have(f.sum, onto(f.product, x))
}

// The answer for a text that ends here, within so many open brackets.
fn ended(t: Top, depth: usize) -> Result<i64, Reason>
    ensures { result ≡ answer_by (end_at depth (place_of t)) }
{
    if depth != 0 {
        return Err(Reason::NoExpression);
    }
    total(t)
        .ok_or(Reason::NoExpression)?
        .ok_or(Reason::OutOfBounds)
}

// The value of a text that is a sum with brackets at most 32 deep.
pub fn evaluate(text: &[u8]) -> Result<i64, Reason>
    ensures { result ≡ answer_of text.now }
{
    let nothing = Frame {
        sum: None,
        product: None,
    };
    // The frames of the open brackets, and how many: a stack that grows would need a heap, which no crate here uses.
    let mut outer = [nothing; DEEP];
    let mut depth = 0usize;
    let mut place = Top::Want(nothing);
    for &c in text {
        if c == b'(' {
            outer[depth] = opening(place, depth).ok_or(Reason::NoExpression)?;
            depth += 1;
            place = Top::Want(nothing);
        } else if c == b')' {
            let x = total(place).ok_or(Reason::NoExpression)?;
            if depth == 0 {
                return Err(Reason::NoExpression);
            }
            depth -= 1;
            place = resumed(outer[depth], x);
        } else {
            place = stepped(c, place);
        }
    }
    ended(place, depth)
}

// The length of a value's decimal writing, with its minus sign.
// `written` of text is alike: each is by its own definition.
pub fn written_length(z: i64) -> u32
    requires { unsigned_abs z ≤ limit }
    ensures { Length z result }
{
    u32::from(z < 0) + text::decimal::decimal_length(z.unsigned_abs())
}

// The length of the decimal writing of a text's value.
pub fn measured(text: &[u8]) -> Result<u32, Reason>
    ensures { result ≡ measure_of text.now }
{
    Ok(written_length(evaluate(text)?))
}

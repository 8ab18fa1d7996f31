// Sums in a cell: the steps of the reckoning, one operator at a time. What a sum is, and its value, stand in specs.
#![tactic(auto)]

ghost use Rattle.std.specs.Prelude.{◌≡◌, option_and_then};
ghost use Rattle.expression.specs.Tree.{within, result_of, both};

// The bound of each step's result.
const LIMIT: u64 = 1_000_000_000_000;

#[derive(Clone, Copy)]
pub enum Op {
    Plus,
    Minus,
    Times,
    Over,
}

// A result that 64 bits hold, if it is within the bounds.
fn bounded(x: Option<i64>) -> Option<i64>
    ensures { result ≡ option_and_then within x }
{
    x.filter(|x| x.unsigned_abs() <= LIMIT)
}

// The result of an operator on two values. A quotient is towards zero; there is none by nought. `bounded` in each arm: as one call around the `match`
// it was not proved, since the definition has it in each.
fn reckoned(o: Op, a: i64, b: i64) -> Option<i64>
    ensures { result ≡ result_of o a b }
{
    match o {
        Op::Plus => bounded(a.checked_add(b)),
        Op::Minus => bounded(a.checked_sub(b)),
        Op::Times => bounded(a.checked_mul(b)),
        Op::Over => bounded(a.checked_div(b)),
    }
}

// A step: the result of an operator on two results, outside the bounds if one of them is.
pub fn joined(o: Op, a: Option<i64>, b: Option<i64>) -> Option<i64>
    ensures { result ≡ both o a b }
{
    reckoned(o, a?, b?)
}

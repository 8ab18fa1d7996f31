// EightPost bytes at once, as one number: they are its digits in base 256, the first lowest. The compiled code takes them in one step.
// The bytes and a place are two parameters, as in `drop at bytes`: a struct of both is three words, which are handed over by their address.
// `w ≤ all_low` and `gap ≤ 1` are asked in three contracts each: a type of one number would be opened again at each call (docs/DESIGN-PASS.md).
// `as` where a count, a size or a gap is known to be small: a `TryFrom` would never fail.
#![tactic(auto)]

ghost use Rattle.std.specs.Prelude.{◌≡◌, List, ℕ, ◌+◌, ◌*◌, ◌≤◌, length, drop};
ghost use Rattle.swar.specs.inner.Digits.{as_number, Octets, Low, Bits, EightPost, Digitwise, all_ones, all_low, top, char, odd, after_from, adds_of, CutPost};
ghost use Rattle.swar.specs.inner.Plain.{PlainFront};

// Each digit 128, 1, 95 and 96.
const TOPS: u64 = 0x8080_8080_8080_8080;

const ONES: u64 = 0x0101_0101_0101_0101;

const EACH_95: u64 = 0x5F5F_5F5F_5F5F_5F5F;

const EACH_96: u64 = 0x6060_6060_6060_6060;

// 256 to the seventh: what the last digit counts.
const LAST: u64 = 0x0100_0000_0000_0000;

// The front of eight bytes that holds characters and spaces alone: how many bytes, what they add to a text's size, and 1 if a space stands last.
// That gap is a number: the next eight add it as a digit, and a bool would be turned back into it in each contract.
#[derive(Clone, Copy)]
pub struct Plain {
    pub count: usize,
    pub size: u32,
    pub gap: u32,
}

// The eight bytes from a place on. By place: tried: `first_chunk::<8>()`: the check of tables:1365 takes 46.4 microseconds, not 41.8.
pub fn eight(bytes: &[u8], at: usize) -> u64
    requires { at + 8 ≤ length bytes.now }
    ensures { EightPost bytes.now at result }
{
    u64::from_le_bytes([
        bytes[at],
        bytes[at + 1],
        bytes[at + 2],
        bytes[at + 3],
        bytes[at + 4],
        bytes[at + 5],
        bytes[at + 6],
        bytes[at + 7],
    ])
}

// Of each digit 1 if it is 128 or more, else 0.
fn tops(w: u64) -> u64
    ensures { Digitwise Octets top all_ones w result }
{
    (w & TOPS) / 128
}

// Of each digit below 128 1 if it is 33 or more, else 0: a character, no space.
fn chars_of(w: u64) -> u64
    requires { w ≤ all_low }
    ensures { Digitwise Low char all_ones w result }
{
    tops(w + EACH_95)
}

// Of each digit below 128 1 if it is below 32 or 127, else 0: neither a character nor a space.
fn odd_of(w: u64) -> u64
    requires { w ≤ all_low }
    ensures { Digitwise Low odd (2 * all_ones) w result }
{
    (ONES - tops(w + EACH_96)) + tops(w + ONES)
}

// By digits that are 1 for a character and 0 for a space: 1 after a space, where gap says so of the first.
fn after_of(chars: u64, gap: u32) -> u64
    requires { (gap ≤ 1) × (chars ≤ all_ones) }
    ensures { (cs : List ℕ) → Bits cs → chars ≡ as_number cs → result ≡ as_number (after_from gap cs) }
{
    (ONES - chars) % LAST * 256 + u64::from(gap)
}

// By these, what each adds to the size of a text: a character 1, and 1 more after a space.
fn adds_of(chars: u64, after: u64) -> u64
    requires { chars ≤ all_ones }
    ensures { (cs ss : List ℕ) → Bits cs → Bits ss → chars ≡ as_number cs → after ≡ as_number ss → result ≡ as_number (adds_of cs ss) }
{
    chars + (chars & after)
}

// What is told of the bytes before the first odd one.
fn cut(odd: u64, adds: u64, after: u64) -> Plain
    requires { 1 ≤ odd }
    ensures { (os xs ss : List ℕ) → Bits os → Octets xs → Octets ss → odd ≡ as_number os → adds ≡ as_number xs → after ≡ as_number ss → CutPost os xs ss result.count result.size result.gap }
{
    let bits = u64::trailing_zeros(odd);
    let end = 1u64 << bits;
    Plain {
        count: (bits / 8) as usize,
        size: (adds % end % 255) as u32,
        gap: (after / end % 256) as u32,
    }
}

// Of eight bytes below 128, the front that holds characters and spaces alone.
fn plain_of(w: u64, gap: u32) -> Plain
    requires w_le_all_low { w ≤ all_low }
    requires gap_bound { gap ≤ 1 }
    ensures { (ds : List ℕ) → Low ds → w ≡ as_number ds → PlainFront ds gap result }
{
    let chars = chars_of(w);
    let odd = odd_of(w);
    let after = after_of(chars, gap);
    let adds = adds_of(chars, after);
    if odd != 0 {
        return cut(odd, adds, after);
    }
    Plain {
        count: 8,
        size: (adds % 255) as u32,
        gap: (1 - chars / LAST) as u32,
    }
}

// Of the eight bytes from a place on, the front that holds characters and spaces alone; gap is 1 where a space stands before it.
pub fn plain_at(bytes: &[u8], at: usize, gap: u32) -> Plain
    requires at_in_bounds { at + 8 ≤ length bytes.now }
    requires gap_bound { gap ≤ 1 }
    ensures { PlainFront (drop at bytes.now) gap result }
{
    let w = eight(bytes, at);
    if tops(w) != 0 {
        return Plain {
            count: 0,
            size: 0,
            gap,
        };
    }
    plain_of(w, gap)
}

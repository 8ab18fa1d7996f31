// Number fields of a sheet: digits without a leading zero, a minus only before a nonzero number, then one space.
// `as` where a value is known to be at most `most`: a `TryFrom` would never fail.
ghost use Rattle.std.specs.Prelude.{◌≡◌, ◌+◌, ◌-◌, ◌*◌, ◌≤◌, drop};
ghost use Rattle.text.specs.Decimal.{shift, shifted};
ghost use Rattle.fields.specs.Numbers.{number_of, up_to, within, magnitude};
ghost use Rattle.fields.specs.inner.Reading.{digits_in, written_in, written_at, from_to, number_read};

use super::Scanned;
use super::places::field_at;
use text::decimal::SHIFT;

// The value of a field of digits, the first of which may be 0. Once it is above most, no further digit brings it back, so the reading stops there: any
// number of digits may follow. A `for` that ends early: `try_fold` would hold the same lines in a closure.
pub fn digits_in(field: &[u8], most: u32) -> Option<u32>
    ensures { result ≡ digits_in most 0 field.now }
{
    let mut value = 0u64;
    for b in field {
        if !b.is_ascii_digit() {
            return None;
        }
        value = value * 10 + u64::from(*b - b'0');
        if value > u64::from(most) {
            return None;
        }
    }
    Some(value as u32)
}

// The number from 0 to most that a field writes: digits without a leading zero. A minus would stand before a number below 0.
// No match of slice patterns: where arms meet the proof has no name for what they say.
pub fn written_in(field: &[u8], most: u32) -> Option<u32>
    ensures { result ≡ written_in most (number_of field.now) }
{
    let (first, after) = field.split_first()?;
    let led_by_zero = *first == b'0';
    if led_by_zero && !after.is_empty() {
        return None;
    }
    digits_in(field, most)
}

// The number from 0 to most in the field that ends at the first byte of a value, and the place after that byte. `kind_at` is alike, with another reader:
// one function for both would be asked of a closure what it answers.
pub fn number_at(bytes: &[u8], at: usize, stop: u8, most: u32) -> Option<Scanned<u32>>
    ensures { result ≡ written_at stop most at (drop at bytes.now) }
{
    let field = field_at(bytes, at, stop)?;
    let value = written_in(field, most)?;
    Some(Scanned {
        value,
        next: at + field.len() + 1,
    })
}

// A number from 0 to most. A single digit, the commonest field of a sheet, is looked for first.
pub fn natural_at(bytes: &[u8], at: usize, most: u32) -> Option<Scanned<u32>>
    ensures { result ≡ number_read (up_to most) magnitude at (drop at bytes.now) }
{
    let Some([digit @ b'0'..=b'9', b' ', ..]) = bytes.get(at..) else {
        return number_at(bytes, at, b' ', most);
    };
    let value = u32::from(*digit - b'0');
    if value > most {
        return None;
    }
    Some(Scanned {
        value,
        next: at + 2,
    })
}

// A number from least to most, shifted up.
pub fn shifted_at(bytes: &[u8], at: usize, least: u32, most: u32) -> Option<Scanned<u32>>
    requires { most ≤ shift }
    ensures { result ≡ number_read (from_to least most) shifted at (drop at bytes.now) }
{
    let n = natural_at(bytes, at, most)?;
    if n.value < least {
        return None;
    }
    Some(Scanned {
        value: SHIFT + n.value,
        next: n.next,
    })
}

// A number from -1,000,000,000 to 1,000,000,000, shifted up.
pub fn signed_at(bytes: &[u8], at: usize) -> Option<Scanned<u32>>
    ensures { result ≡ number_read (within shift) shifted at (drop at bytes.now) }
{
    let first = bytes.get(at)?;
    if *first != b'-' {
        return shifted_at(bytes, at, 0, SHIFT);
    }
    let n = natural_at(bytes, at + 1, SHIFT)?;
    if n.value == 0 {
        return None;
    }
    Some(Scanned {
        value: SHIFT - n.value,
        next: n.next,
    })
}

// The numbers that a line of a kind may have: its n and its spans.
ghost use Rattle.std.specs.Prelude.{◌≡◌, drop};
ghost use Rattle.text.specs.Decimal.{shifted};
ghost use Rattle.fields.specs.inner.Reading.{number_read};
ghost use Rattle.line.specs.Fields.{n_fits};
ghost use Rattle.line.specs.inner.Reading.{span_limit};

use fields::{Scanned, numbers};
use kinds::Kind;

// The field n of a line of the kind: a heading's rank, a list's first number, or 0.
pub fn n_at(bytes: &[u8], at: usize, kind: Kind) -> Option<Scanned<u32>>
    ensures { result ≡ number_read (n_fits kind) shifted at (drop at bytes.now) }
{
    match kind {
        Kind::Head => numbers::shifted_at(bytes, at, 1, 6),
        Kind::Ol => numbers::signed_at(bytes, at),
        _ => numbers::shifted_at(bytes, at, 0, 0),
    }
}

// Cells alone have spans: the largest that a line of the kind may have, where a cell may have `most`.
#[tactic(auto, unfolding(crate::specs::inner::Reading::span_limit))]
pub fn span_limit(kind: Kind, most: u32) -> u32
    ensures { result ≡ span_limit kind most }
{
    if kind == Kind::Cell { most } else { 0 }
}

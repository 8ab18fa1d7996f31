// What stands at a place of the bytes.
ghost use Rattle.std.specs.Prelude.{◌≡◌, ◌+◌, ◌<◌, IfSome, length, drop, eqb, position};
ghost use Rattle.std.specs.Option.{option_copied};
ghost use Rattle.fields.specs.Blanks.{front_to};

// How many bytes stand before the first that is the given one, if one is.
fn stop_in(rest: &[u8], stop: u8) -> Option<usize>
    ensures { result ≡ position (λ b. eqb b stop) rest.now }
{
    rest.iter().position(|b| *b == stop)
}

// The bytes from a place on, before the first that is the given one, if one is.
pub fn field_at(bytes: &[u8], at: usize, stop: u8) -> Option<&[u8]>
    ensures field { option_copied result ≡ front_to stop (drop at bytes.now) }
    ensures inside { IfSome result (λ f. at + length f.now < length bytes.now) }
{
    let rest = bytes.get(at..)?;
    let end = stop_in(rest, stop)?;
    Some(&rest[..end])
}

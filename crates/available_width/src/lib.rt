// The widths of a walk, and what a line passes on to its children of the width that it has. Ports `width_minus` of `src/render/text_renderer.rs`.
#![tactic(auto)]

ghost use Rattle.std.specs.Prelude.{◌≡◌};
ghost use Rattle.available_width.specs.Walk.{takes_off, passed_on, too_narrow, printed};

use kinds::Kind;
use text::Estimate;

// The width of a line is an `Option<u32>`: what stands in a missing cell has none, which is not the width 0.

// These take off their prefix.
#[tactic(auto, unfolding(crate::specs::Walk::takes_off))]
fn takes_off(kind: Kind) -> bool
    ensures { result ≡ takes_off kind }
{
    matches!(
        kind,
        Kind::Head | Kind::Quote | Kind::Ul | Kind::Ol | Kind::Dd
    )
}

// The rest without the prefix, but no less than the line's own least width without it.
pub fn passed_on(kind: Kind, e: Estimate, w: Option<u32>) -> Option<u32>
    ensures { result ≡ passed_on kind e w }
{
    let v = w?;
    if takes_off(kind) {
        let least = e.least.saturating_sub(e.prefix);
        return Some(v.saturating_sub(e.prefix).max(least));
    }
    Some(v)
}

// Whether the rest is less than that.
pub fn too_narrow(kind: Kind, e: Estimate, w: Option<u32>) -> bool
    ensures { result ≡ too_narrow kind e w }
{
    let least = e.least.saturating_sub(e.prefix);
    takes_off(kind) && w.is_some_and(|v| v.saturating_sub(e.prefix) < least)
}

// The width of a printed cell; a missing one has none.
pub fn printed(w: u32) -> Option<u32>
    ensures { result ≡ printed w }
{
    (w != 0).then_some(w)
}

// The settings before a sheet: the first two lines of the input of a program. The format is our own: the Rust has no counterpart.
#![tactic(auto)]

ghost use Rattle.std.specs.Prelude.{◌≡◌, ok_or};
ghost use Rattle.common.specs.Refusals.{refusal};
ghost use Rattle.common.specs.declared.Reason.TheVariants.{Setting};
ghost use Rattle.settings.specs.Settings.{settings_of};

use common::{Reason, Refusal};
use fields::numbers::number_at;

// The three settings, and the place where the sheet starts: what the two lines say. `arguments::Settings` is what a call may ask, in its ranges.
// Not that struct within: it has a proof in a ghost field, and the definition of an input's settings has none.
#[derive(Clone, Copy, Debug, PartialEq, Eq)]
pub struct Given {
    pub wrap: u32,
    pub raw: u32,
    pub width: u32,
    pub sheet: usize,
}

// The heading and its line feed.
const HEADING: &[u8] = b"wrap raw width\n";

const MAX_RAW: u32 = 1;

// The settings, where they are well formed and in their ranges.
fn given_in(bytes: &[u8]) -> Option<Given>
    ensures { ok_or result (refusal Setting 0) ≡ settings_of bytes.now }
{
    if !bytes.starts_with(HEADING) {
        return None;
    }
    let wrap = number_at(bytes, HEADING.len(), b' ', common::MAX_WRAP)?;
    let raw = number_at(bytes, wrap.next, b' ', MAX_RAW)?;
    let width = number_at(bytes, raw.next, b'\n', common::MAX_WIDTH)?;
    Some(Given {
        wrap: wrap.value,
        raw: raw.value,
        width: width.value,
        sheet: width.next,
    })
}

// The settings that the first two lines of an input give, and the place where its sheet starts.
pub fn settings(bytes: &[u8]) -> Result<Given, Refusal>
    ensures { result ≡ settings_of bytes.now }
{
    given_in(bytes).ok_or(Reason::Setting.at(0))
}

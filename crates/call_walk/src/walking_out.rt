// The walk of a sheet, written to the lent buffers.
ghost use Rattle.std.specs.Prelude.{◌≡◌, ◌≤◌, length, MatchResult, None, Ok, Err};
ghost use Rattle.arguments.specs.inner.Asked.{verdict_in};
ghost use Rattle.sheet_walk.specs.Sheets.{walked_checks};
ghost use Rattle.available_width.specs.Walk.{given_number, width_number};
ghost use Rattle.call_walk.specs.inner.Found.{WriteWidthsPost, WalkCapacity, WalkFound};

use arguments::Settings;
use common::{MAX_LINES, Refusal};

// Whether a line has a width: 1, or 0. By the definition of this name, as the next one.
fn given_number(w: Option<u32>) -> u32
    ensures { result ≡ given_number w }
{
    u32::from(w.is_some())
}

// Which width it has, or 0.
fn width_number(w: Option<u32>) -> u32
    ensures { result ≡ width_number w }
{
    w.unwrap_or(0)
}

// Whether each line has a width, and which, in the front of the buffers.
fn write_widths(walk: &[Option<u32>], given: &mut [u32], wide: &mut [u32])
    requires { (length walk.now ≤ length given.old) × (length walk.now ≤ length wide.old) }
    ensures { WriteWidthsPost walk.now given.new wide.new }
{
    common::write_front(walk, |w| given_number(*w), given);
    common::write_front(walk, |w| width_number(*w), wide);
}

// The walk of a sheet. The first buffer is written last, and until then it is scratch.
// The arrays are declared here: no function can hand out slices of its own.
fn walk_out(
    sheet: &[u8],
    settings: Settings,
    given: &mut [u32],
    wide: &mut [u32],
) -> Result<usize, Refusal>
    requires { WalkCapacity given.old wide.old }
    ensures { WalkFound (walked_checks None sheet.now settings.wrap settings.raw settings.width settings.overflow) sheet.now settings.wrap settings.raw settings.width result given.new wide.new }
{
    let mut lines = [records::NO_NODE; MAX_LINES];
    let mut figures = [estimates::NONE; MAX_LINES];
    let mut walk = [None; MAX_LINES];
    let n = sheet_walk::walk_sheet(
        sheet,
        None,
        settings,
        &mut lines,
        &mut figures,
        &mut walk,
        given,
    )?;
    write_widths(&walk[..n], given, wide);
    Ok(n)
}

// The same, unless the arguments are refused. A function and no closure: of what a closure given to `and_then` leaves in the lent buffers nothing is
// known after it.
#[tactic(auto, unfolding(arguments::specs::inner::Asked::verdict_in))]
pub fn find_walk(
    sheet: &[u8],
    asked: Result<Settings, Refusal>,
    given: &mut [u32],
    wide: &mut [u32],
) -> Result<usize, Refusal>
    requires { verdict_in asked ≡ Ok tt → WalkCapacity given.old wide.old }
    ensures { MatchResult asked
        (λ g. WalkFound (walked_checks None sheet.now g.wrap g.raw g.width g.overflow) sheet.now g.wrap g.raw g.width result given.new wide.new)
        (λ why. result ≡ Err why) }
{
    let settings = asked?;
    walk_out(sheet, settings, given, wide)
}

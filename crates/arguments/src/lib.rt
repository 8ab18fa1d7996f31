// What a call's settings and the lengths of its buffers are refused for: 16, 9 and 11.
// wrap, raw, width and overflow are a parameter each, as the C interface hands them over.
// raw and overflow are numbers: the definitions take 0 or 1 and refuse any other; of a `bool` each contract would make the number again.
#![tactic(auto, unfolding(common::specs::Refusals::verdict_of, common::specs::Refusals::first_answer, crate::specs::Arguments::any_shorter))]

ghost use Rattle.std.specs.Prelude.{◌≡◌, [], ◌∷◌, ◌||◌, ◌≤◌, ltb, eqb, length};
ghost use Rattle.std.specs.List.{list_any};
ghost use Rattle.common.specs.Limits.{max_size, max_wrap, max_width, max_widths, max_lines, max_entries};
ghost use Rattle.arguments.specs.Arguments.{any_above, any_shorter, estimates_arguments, grid_arguments, layout_arguments, missing_arguments, pointing_arguments, within_arguments, walk_settings, walk_arguments, nested_arguments, window_arguments};
ghost use Rattle.common.specs.Refusals.{check, verdict_of};
ghost use Rattle.common.specs.declared.Reason.TheVariants.{Setting, ShortBuffer, WidthList};
ghost use Rattle.common.specs.declared.Reason.{Reason};

use common::{MAX_ENTRIES, MAX_LINES, MAX_WIDTH, MAX_WIDTHS, MAX_WRAP, Reason, Refusal};

// The settings of a call, with what a layout asks of the width. Those that a call does not have are 0.
#[derive(Clone, Copy, Debug, PartialEq, Eq)]
pub struct Settings {
    pub wrap: u32,
    pub raw: u32,
    pub width: u32,
    pub overflow: u32,
    pub ghost width_bound: { width ≤ max_size },
}

// Whether one of the lengths of lent buffers is below the least that is asked.
fn any_shorter(least: usize, lengths: &[usize]) -> bool
    ensures { result ≡ list_any (λ n. ltb n least) lengths.now }
{
    lengths.iter().any(|n| *n < least)
}

// Whether one of the widths is above the largest that is taken.
fn any_above(most: u32, widths: &[u32]) -> bool
    ensures { result ≡ list_any (λ w. ltb most w) widths.now }
{
    widths.iter().any(|w| *w > most)
}

// Whether the settings of a call with a list of widths are out of range.
fn out_of_range(wrap: u32, raw: u32, widths: &[u32]) -> bool
    ensures { result ≡ (ltb max_wrap wrap || ltb 1 raw || any_above max_width widths.now) }
{
    wrap > MAX_WRAP || raw > 1 || any_above(MAX_WIDTH, widths)
}

// Whether a list of widths is empty, or longer than a call takes.
fn wrong_length(widths: &[u32]) -> bool
    ensures { result ≡ (eqb (length widths.now) 0 || ltb max_widths (length widths.now)) }
{
    widths.is_empty() || widths.len() > MAX_WIDTHS
}

// A refusal of no line, if the test holds.
fn refuse_if(test: bool, reason: Reason) -> Result<(), Refusal>
    ensures { result ≡ verdict_of (check test reason 0 ∷ []) }
{
    if test { Err(reason.at(0)) } else { Ok(()) }
}

pub fn of_estimates(wrap: u32, size: usize, least: usize, prefix: usize) -> Result<(), Refusal>
    ensures { result ≡ verdict_of (estimates_arguments wrap (size ∷ least ∷ prefix ∷ [])) }
{
    refuse_if(wrap > MAX_WRAP, Reason::Setting)?;
    let short = any_shorter(MAX_LINES, &[size, least, prefix]);
    refuse_if(short, Reason::ShortBuffer)
}

pub fn of_grid(
    cell: usize,
    first: usize,
    span: usize,
    row: usize,
    row_end: usize,
) -> Result<(), Refusal>
    ensures { result ≡ verdict_of (grid_arguments (cell ∷ first ∷ span ∷ []) (row ∷ row_end ∷ [])) }
{
    let short = any_shorter(MAX_ENTRIES, &[cell, first, span])
        || any_shorter(MAX_LINES, &[row, row_end]);
    refuse_if(short, Reason::ShortBuffer)
}

// Whether the buffer for the columns of a layout is too short, or one of those for its entries.
fn layout_short(column: usize, x: usize, wide: usize) -> bool
    ensures { result ≡ (any_shorter max_lines (column ∷ []) || any_shorter max_entries (x ∷ wide ∷ [])) }
{
    any_shorter(MAX_LINES, &[column]) || any_shorter(MAX_ENTRIES, &[x, wide])
}

// Each gives the settings as they are given, unless they or the lengths of the lent buffers are refused.
// The lines that refuse a short buffer are alike: a function for them would have as many parameters as they have lines.
#[tactic(auto, unfolding(common::specs::Refusals::verdict_of, common::specs::Refusals::first_answer, crate::specs::Arguments::any_shorter, crate::specs::inner::Asked::verdict_in))]
impl Settings {
    ghost use Rattle.arguments.specs.inner.Asked.{SettingsChecked};

    pub fn of_layout(
        wrap: u32,
        raw: u32,
        width: u32,
        column: usize,
        x: usize,
        wide: usize,
    ) -> Result<Self, Refusal>
        ensures { SettingsChecked (layout_arguments wrap raw width (column ∷ []) (x ∷ wide ∷ [])) wrap raw width 0 result }
    {
        let settings = Settings::of_pointing(wrap, raw, width)?;
        let short = layout_short(column, x, wide);
        refuse_if(short, Reason::ShortBuffer)?;
        Ok(settings)
    }

    pub fn of_missing(
        wrap: u32,
        raw: u32,
        width: u32,
        entry: usize,
        cause: usize,
    ) -> Result<Self, Refusal>
        ensures { SettingsChecked (missing_arguments wrap raw width (entry ∷ []) (cause ∷ [])) wrap raw width 0 result }
    {
        let settings = Settings::of_pointing(wrap, raw, width)?;
        let short = any_shorter(MAX_ENTRIES, &[entry]) || any_shorter(MAX_LINES, &[cause]);
        refuse_if(short, Reason::ShortBuffer)?;
        Ok(settings)
    }

    pub fn of_pointing(wrap: u32, raw: u32, width: u32) -> Result<Self, Refusal>
        ensures { SettingsChecked (pointing_arguments wrap raw width) wrap raw width 0 result }
    {
        Settings::of_walking(wrap, raw, width, 0)
    }

    pub fn of_within(wrap: u32, raw: u32, width: u32, listed: usize) -> Result<Self, Refusal>
        ensures { SettingsChecked (within_arguments wrap raw width (listed ∷ [])) wrap raw width 0 result }
    {
        let settings = Settings::of_pointing(wrap, raw, width)?;
        let short = any_shorter(MAX_ENTRIES, &[listed]);
        refuse_if(short, Reason::ShortBuffer)?;
        Ok(settings)
    }

    // Those of a walk, whatever is lent.
    fn of_walking(wrap: u32, raw: u32, width: u32, overflow: u32) -> Result<Self, Refusal>
        ensures { SettingsChecked (walk_settings wrap raw width overflow ∷ []) wrap raw width overflow result }
    {
        let refused = wrap > MAX_WRAP || raw > 1 || width > MAX_WIDTH || overflow > 1;
        refuse_if(refused, Reason::Setting)?;
        Ok(Settings {
            wrap,
            raw,
            width,
            overflow,
        })
    }

    pub fn of_walk(
        wrap: u32,
        raw: u32,
        width: u32,
        overflow: u32,
        given: usize,
        wide: usize,
    ) -> Result<Self, Refusal>
        ensures { SettingsChecked (walk_arguments wrap raw width overflow (given ∷ wide ∷ [])) wrap raw width overflow result }
    {
        let settings = Settings::of_walking(wrap, raw, width, overflow)?;
        let short = any_shorter(MAX_LINES, &[given, wide]);
        refuse_if(short, Reason::ShortBuffer)?;
        Ok(settings)
    }

    pub fn of_nested(
        wrap: u32,
        raw: u32,
        width: u32,
        overflow: u32,
        columns: usize,
        starts: usize,
        wides: usize,
    ) -> Result<Self, Refusal>
        ensures { SettingsChecked (nested_arguments wrap raw width overflow (columns ∷ []) (starts ∷ wides ∷ [])) wrap raw width overflow result }
    {
        let settings = Settings::of_walking(wrap, raw, width, overflow)?;
        let short = layout_short(columns, starts, wides);
        refuse_if(short, Reason::ShortBuffer)?;
        Ok(settings)
    }

    // The width is that of no one layout, and so 0.
    pub fn of_window(
        wrap: u32,
        raw: u32,
        widths: &[u32],
        way: usize,
        wide: usize,
        missing: usize,
    ) -> Result<Self, Refusal>
        ensures { SettingsChecked (window_arguments wrap raw widths.now (way ∷ wide ∷ missing ∷ [])) wrap raw 0 0 result }
    {
        refuse_if(wrong_length(widths), Reason::WidthList)?;
        refuse_if(out_of_range(wrap, raw, widths), Reason::Setting)?;
        let short = any_shorter(widths.len(), &[way, wide, missing]);
        refuse_if(short, Reason::ShortBuffer)?;
        Ok(Settings {
            wrap,
            raw,
            width: 0,
            overflow: 0,
        })
    }
}

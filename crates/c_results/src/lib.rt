// What crosses to C: `#[repr(C)]` structs of numbers alone, each made from what the call inside answers: number 0 and line 0 if it is accepted; else the
// refusal's number and line, and zeros.
#![tactic(auto, unfolding(crate::specs::Answers::check_result, crate::specs::Answers::measure_result, crate::specs::Answers::estimates_result, crate::specs::Answers::grid_result, crate::specs::Answers::layout_result, crate::specs::Answers::missing_result, crate::specs::Answers::at_result, crate::specs::Answers::within_result, crate::specs::Answers::joining_result, crate::specs::Answers::walk_result, crate::specs::Answers::nested_result, crate::specs::Answers::window_result, answers::specs::Numbers::under_number))]

ghost use Rattle.std.specs.Prelude.{◌≡◌};
ghost use Rattle.c_results.specs.Answers.{as_img, check_result, measure_result, estimates_result, grid_result, layout_result, missing_result, at_result, within_result, joining_result, walk_result, nested_result, window_result, spoken_result};

use answers::{Causes, Grid, Joint, Layout, Nested, Part, Under};
use common::Refusal;
use text::Estimate;

#[repr(C)]
#[derive(Clone, Copy, Debug, Default, PartialEq, Eq)]
pub struct CheckResult {
    pub number: u32,
    pub line: u32,
}

#[repr(C)]
#[derive(Clone, Copy, Debug, Default, PartialEq, Eq)]
pub struct MeasureResult {
    pub number: u32,
    pub line: u32,
    pub size: u32,
    pub least: u32,
    pub prefix: u32,
}

#[repr(C)]
#[derive(Clone, Copy, Debug, Default, PartialEq, Eq)]
pub struct EstimatesResult {
    pub number: u32,
    pub line: u32,
    pub lines: u32,
}

#[repr(C)]
#[derive(Clone, Copy, Debug, Default, PartialEq, Eq)]
pub struct GridResult {
    pub number: u32,
    pub line: u32,
    pub rows: u32,
    pub entries: u32,
    pub columns: u32,
}

// way: 0 sideways, 1 down.
#[repr(C)]
#[derive(Clone, Copy, Debug, Default, PartialEq, Eq)]
pub struct LayoutResult {
    pub number: u32,
    pub line: u32,
    pub way: u32,
    pub columns: u32,
    pub width: u32,
}

#[repr(C)]
#[derive(Clone, Copy, Debug, Default, PartialEq, Eq)]
pub struct MissingResult {
    pub number: u32,
    pub line: u32,
    pub count: u32,
    pub columns: u32,
}

// what: 0 nothing, 1 gap, 2 cell; entry is 0 unless it is a cell.
#[repr(C)]
#[derive(Clone, Copy, Debug, Default, PartialEq, Eq)]
pub struct AtResult {
    pub number: u32,
    pub line: u32,
    pub what: u32,
    pub entry: u32,
}

#[repr(C)]
#[derive(Clone, Copy, Debug, Default, PartialEq, Eq)]
pub struct WithinResult {
    pub number: u32,
    pub line: u32,
    pub count: u32,
}

// joint: 0 plain, 1 up, 2 down, 3 both.
#[repr(C)]
#[derive(Clone, Copy, Debug, Default, PartialEq, Eq)]
pub struct JoiningResult {
    pub number: u32,
    pub line: u32,
    pub joint: u32,
}

#[repr(C)]
#[derive(Clone, Copy, Debug, Default, PartialEq, Eq)]
pub struct WalkResult {
    pub number: u32,
    pub line: u32,
    pub lines: u32,
}

// given: 1 if the walk gives the table a width, and at which it is laid out; else all are 0.
#[repr(C)]
#[derive(Clone, Copy, Debug, Default, PartialEq, Eq)]
pub struct NestedResult {
    pub number: u32,
    pub line: u32,
    pub given: u32,
    pub at: u32,
    pub way: u32,
    pub columns: u32,
    pub width: u32,
}

#[repr(C)]
#[derive(Clone, Copy, Debug, Default, PartialEq, Eq)]
pub struct WindowResult {
    pub number: u32,
    pub line: u32,
    pub count: u32,
}

// of_sheet: 1 if the text is a part of the sheet, so long and from there on; 0 if it is the whole wording, from 0 on, and where the call is refused. A
// wording may be longer than 32 bits say: then length is the largest number that they do.
#[repr(C)]
#[derive(Clone, Copy, Debug, Default, PartialEq, Eq)]
pub struct SpokenResult {
    pub number: u32,
    pub line: u32,
    pub of_sheet: u32,
    pub from: u32,
    pub length: u32,
}

// The largest length that is answer: `as`, since there is no `From` of a `u32` for a `usize`.
const MAX_LENGTH: usize = u32::MAX as usize;

// Whether a number says img: every one but 0 does.
pub fn as_img(img: u32) -> bool
    ensures { result ≡ as_img img }
{
    img != 0
}

// Each impl writes a refusal's two fields itself: a type parameter has no fields, so that a helper would need an impl for each of the twelve structs, which
// the C interface has, and each would be as long as the arm.

// The answer of `check`.
impl From<Result<(), Refusal>> for CheckResult {
    ghost from_gives = { λ answer r. r ≡ check_result answer };

    fn from(answer: Result<(), Refusal>) -> CheckResult {
        match answer {
            Ok(()) => CheckResult::default(),
            Err(why) => CheckResult {
                number: why.reason.number(),
                line: why.line,
            },
        }
    }
}

// The answer of `measure`.
impl From<Result<Estimate, Refusal>> for MeasureResult {
    ghost from_gives = { λ answer r. r ≡ measure_result answer };

    fn from(answer: Result<Estimate, Refusal>) -> MeasureResult {
        match answer {
            Ok(e) => MeasureResult {
                size: e.size,
                least: e.least,
                prefix: e.prefix,
                ..Default::default()
            },
            Err(why) => MeasureResult {
                number: why.reason.number(),
                line: why.line,
                ..Default::default()
            },
        }
    }
}

// The answer of `estimates`.
impl From<Result<u32, Refusal>> for EstimatesResult {
    ghost from_gives = { λ answer r. r ≡ estimates_result answer };

    fn from(answer: Result<u32, Refusal>) -> EstimatesResult {
        match answer {
            Ok(lines) => EstimatesResult {
                lines,
                ..Default::default()
            },
            Err(why) => EstimatesResult {
                number: why.reason.number(),
                line: why.line,
                ..Default::default()
            },
        }
    }
}

// The answer of `grid`.
impl From<Result<Grid, Refusal>> for GridResult {
    ghost from_gives = { λ answer r. r ≡ grid_result answer };

    fn from(answer: Result<Grid, Refusal>) -> GridResult {
        match answer {
            Ok(grid) => GridResult {
                rows: grid.rows,
                entries: grid.entries,
                columns: grid.columns,
                ..Default::default()
            },
            Err(why) => GridResult {
                number: why.reason.number(),
                line: why.line,
                ..Default::default()
            },
        }
    }
}

// The answer of `layout`.
impl From<Result<Layout, Refusal>> for LayoutResult {
    ghost from_gives = { λ answer r. r ≡ layout_result answer };

    fn from(answer: Result<Layout, Refusal>) -> LayoutResult {
        match answer {
            Ok(layout) => LayoutResult {
                way: layout.way.number(),
                columns: layout.columns,
                width: layout.width,
                ..Default::default()
            },
            Err(why) => LayoutResult {
                number: why.reason.number(),
                line: why.line,
                ..Default::default()
            },
        }
    }
}

// The answer of `missing`.
impl From<Result<Causes, Refusal>> for MissingResult {
    ghost from_gives = { λ answer r. r ≡ missing_result answer };

    fn from(answer: Result<Causes, Refusal>) -> MissingResult {
        match answer {
            Ok(causes) => MissingResult {
                count: causes.count,
                columns: causes.columns,
                ..Default::default()
            },
            Err(why) => MissingResult {
                number: why.reason.number(),
                line: why.line,
                ..Default::default()
            },
        }
    }
}

// The answer of `at`.
impl From<Result<Under<u32>, Refusal>> for AtResult {
    ghost from_gives = { λ answer r. r ≡ at_result answer };

    fn from(answer: Result<Under<u32>, Refusal>) -> AtResult {
        match answer {
            Ok(Under::Cell(entry)) => AtResult {
                what: 2,
                entry,
                ..Default::default()
            },
            Ok(Under::Gap) => AtResult {
                what: 1,
                ..Default::default()
            },
            Ok(Under::Nothing) => AtResult::default(),
            Err(why) => AtResult {
                number: why.reason.number(),
                line: why.line,
                ..Default::default()
            },
        }
    }
}

// The answer of `within`.
impl From<Result<u32, Refusal>> for WithinResult {
    ghost from_gives = { λ answer r. r ≡ within_result answer };

    fn from(answer: Result<u32, Refusal>) -> WithinResult {
        match answer {
            Ok(count) => WithinResult {
                count,
                ..Default::default()
            },
            Err(why) => WithinResult {
                number: why.reason.number(),
                line: why.line,
                ..Default::default()
            },
        }
    }
}

// The answer of `joining`.
impl From<Result<Joint, Refusal>> for JoiningResult {
    ghost from_gives = { λ answer r. r ≡ joining_result answer };

    fn from(answer: Result<Joint, Refusal>) -> JoiningResult {
        match answer {
            Ok(joint) => JoiningResult {
                joint: joint.number(),
                ..Default::default()
            },
            Err(why) => JoiningResult {
                number: why.reason.number(),
                line: why.line,
                ..Default::default()
            },
        }
    }
}

// The answer of `walk`.
impl From<Result<u32, Refusal>> for WalkResult {
    ghost from_gives = { λ answer r. r ≡ walk_result answer };

    fn from(answer: Result<u32, Refusal>) -> WalkResult {
        match answer {
            Ok(lines) => WalkResult {
                lines,
                ..Default::default()
            },
            Err(why) => WalkResult {
                number: why.reason.number(),
                line: why.line,
                ..Default::default()
            },
        }
    }
}

// The answer of `nested`.
impl From<Result<Option<Nested>, Refusal>> for NestedResult {
    ghost from_gives = { λ answer r. r ≡ nested_result answer };

    fn from(answer: Result<Option<Nested>, Refusal>) -> NestedResult {
        match answer {
            Ok(Some(nested)) => NestedResult {
                given: 1,
                at: nested.at,
                way: nested.layout.way.number(),
                columns: nested.layout.columns,
                width: nested.layout.width,
                ..Default::default()
            },
            Ok(None) => NestedResult::default(),
            Err(why) => NestedResult {
                number: why.reason.number(),
                line: why.line,
                ..Default::default()
            },
        }
    }
}

// The answer of `window`.
impl From<Result<u32, Refusal>> for WindowResult {
    ghost from_gives = { λ answer r. r ≡ window_result answer };

    fn from(answer: Result<u32, Refusal>) -> WindowResult {
        match answer {
            Ok(count) => WindowResult {
                count,
                ..Default::default()
            },
            Err(why) => WindowResult {
                number: why.reason.number(),
                line: why.line,
                ..Default::default()
            },
        }
    }
}

impl SpokenResult {
    // The answer of `spoken`, by the length of the wording. No `From`: the length is a second value.
    #[tactic(auto, unfolding(crate::specs::Answers::spoken_result))]
    pub fn of(answer: Result<Option<Part>, Refusal>, wording: usize) -> SpokenResult
        ensures { result ≡ spoken_result answer wording }
    {
        match answer {
            Ok(Some(part)) => SpokenResult {
                of_sheet: 1,
                from: part.from,
                length: part.length,
                ..Default::default()
            },
            Ok(None) => SpokenResult {
                length: wording.min(MAX_LENGTH) as u32,
                ..Default::default()
            },
            Err(why) => SpokenResult {
                number: why.reason.number(),
                line: why.line,
                ..Default::default()
            },
        }
    }
}

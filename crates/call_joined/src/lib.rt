// The calls that join two tables of a sheet: the joined grid, its layout, and the text spoken at a filler of it. Of the first two, each asks its
// arguments first; then what is found in the sheet stands in the lent buffers, and in the end it clears what is no figure.
// A refused call clears all.
// Each buffer is a parameter, as the C interface lends it, down to the function that writes it.
// The arrays that a call works in are the longest: for two tables of a short sheet short ones need not do.
// `as` where a count or a place becomes a `usize`, for which there is no `From`.
#![tactic(auto)]

mod gridding; // the joined grid
mod laying; // the layout of the joined grid
mod speaking; // the text spoken at an entry of the joined grid

pub use gridding::joined_grid;
pub use laying::joined_layout;
pub use speaking::{joined_place, joined_spoken};

//! What bytes that aren't a capture look like, and the command that reads them.
#![tactic(auto)]

mod hint;
mod likeness;

pub use hint::{hint_text, other_hint, put_hint};
pub use likeness::{Likeness, begins_capture, likeness_of};
pub use quad_lanes::OutOfMemory;

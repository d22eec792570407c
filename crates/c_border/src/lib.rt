//! What the libraries for C share: the numbers that calls answer, and lists at places of the caller's.
#![tactic(auto)]

mod place;
mod status;

pub use place::{tell_bytes, tell_quads};
pub use status::{
    INCOMPLETE, NO_CANDIDATE, NO_MEMORY, NO_NAME, NO_STANDARD, OK, OUT_OF_RANGE, REFUSED, TOO_LONG,
    TOO_SHORT,
};

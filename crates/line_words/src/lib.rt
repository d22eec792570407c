//! The numbers that digits spell, and the words between blanks, for lines of scripts and logs.
#![tactic(auto)]

mod number;

pub use number::of_digits;

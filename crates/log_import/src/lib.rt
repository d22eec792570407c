//! The form `busview import --reset=K`: one reset of a Linux kernel's trace or log as the capture of its list
//! (docs/CAPTURES.md).
//!
//! `reset_import` finds the reset in the bytes of a log; `show_reset` reads a log and writes the capture.
#![tactic(auto)]

mod finder;
mod form;
mod import;
mod judge;
mod laws;
mod outcome;
mod read;
mod show;
mod status;
mod taken;

pub use finder::Search;
pub use form::reset_asked;
pub use import::{Import, reset_import};
pub use laws::one_reset;
pub use outcome::{Outcome, Place};
pub use show::show_reset;
pub use status::reset_status;

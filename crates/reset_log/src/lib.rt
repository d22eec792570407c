//! The resets in the text of a Linux kernel's trace or log: what is remembered from line to line, what is shown,
//! and the call that shows a log as it comes, as text or as lines of JSON.
//!
//! What is shown of a log is told of its lines in order, with the last reset of each card (`show_log`).
#![tactic(auto)]

mod cards;
mod device;
mod form;
mod heads;
mod laws;
mod log;
mod notes;
mod shown;
mod values;

pub use cards::{Known, is_repeated, is_second};
pub use form::resets_form;
pub use laws::logs_have_one_text;
pub use log::show_log;
pub use notes::Pending;

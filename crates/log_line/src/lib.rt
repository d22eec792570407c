//! What a line of the text of a Linux kernel's trace or log is by itself: a bus reset with its fields, the
//! beginning of one whose packets have a line each, such a packet, a garbled event, what the drivers say, or
//! something else.
//!
//! `line_of` says it. A line without a mark of these is something else, which a look at its bytes tells
//! (`has_mark`, `begins_loss`).
#![tactic(auto)]

mod device;
mod driver;
mod line;
mod list;
mod listing;
mod local;
mod marks;
mod number;
mod said;
mod time;
mod word;
mod words;

pub use device::DEVICES;
pub use line::{Begun, LogLine, Origin, Reset, front, line_of};
pub use marks::{begins_loss, has_mark};
pub use said::LogText;

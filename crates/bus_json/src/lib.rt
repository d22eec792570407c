//! A bus tree, and the refusal of a capture, as a line of JSON (RFC 8259; docs/VIEW.md).
#![tactic(auto)]

mod bus;
mod json_text;
mod laws;
mod refusal;

pub use bus::{bus_line, name_text, put_tree};
pub use json_text::JsonText;
pub use laws::values_tell_texts;
pub use refusal::{line_refusal, put_refusal, refusal_line};

//! The lines of scripts: their words, forms, commands and faults (docs/SCRIPTS.md).
//!
//! A line is split into words, the words have one of the forms of `specs/Form.antt`, and so say a
//! command; or the first fault decides. What a command does to a bus stands in `script_run`.
#![tactic(auto)]

mod acts;
mod asks;
mod clock;
mod coins;
mod command;
mod fixed;
mod key;
mod kind;
mod laws;
mod line;
mod node;
mod number;
mod pairs;
mod times;
mod word;
mod words;

pub use clock::{TooSlow, before_first, gap_of, slow_ranges};
pub use command::Command;
pub use kind::{Kind, LineStop, ScriptFault, ScriptStop};
pub use laws::{commands_are_in_range, lines_are_refused_so, names_are_tested, one_reading};
pub use line::{parse_line, parse_line_with, says_nothing, turn_line};
pub use number::number_of;
pub use times::ScriptTimes;
pub use topology_stack::{Name, OutOfMemory};

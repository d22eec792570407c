//! The word at fault in a script: its place, and what may stand there (docs/VIEW.md).
#![tactic(auto)]

mod before;
mod cables;
mod clocks;
mod column;
mod fit;
mod laws;
mod line_sentence;
mod misfit;
mod near;
mod pairs;
mod said;
mod sentence;
mod text;
mod usage;

pub use laws::{columns_are_of_words, usages_are_forms};
pub use script_lines::{Kind, ScriptFault};
pub use sentence::{CutScript, put_sentence};
pub use topology_stack::OutOfMemory;

//! The calls of the library for C, `libbusconf`, that take memory for a bus, two buses or a ROM, and
//! the line of a ROM's fault (docs/LIBRARY.md). Each export calls the crate that it is named for and
//! states its clauses again, over records of numbers.
#![tactic(auto)]

mod answer;
mod change;
mod diff;
mod read;
mod records;
mod rom;
mod rom_text;
mod sentence;
mod shown;
mod tree;

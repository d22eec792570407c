//! The calls of the library for C, `libbusconf`, that run scripts (docs/LIBRARY.md). Each export
//! calls the function of `script_run` that it is named for and states its clauses again. It is a
//! library of its own, so that a program that only reads buses has nothing of scripts.
#![tactic(auto)]

mod captured;
mod fault;
mod record;
mod script;
mod text;

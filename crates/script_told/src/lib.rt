//! The one run of a script: its bus, what each command does to it, and what its lines come to
//! (docs/SCRIPTS.md); and the laws of that.
//!
//! Here stands what is to be told, and no code that tells it: that is in `script_bus` and
//! `script_run`.
#![tactic(auto)]

mod laws;

pub use laws::{
    commands_have_answers, reported_trees_are_managed, reports_are_settled,
    script_worlds_are_reached, scripts_are_runs, scripts_tell_one_thing,
};

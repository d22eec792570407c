//! The bus that a script runs: acts, turns, reports, questions to the manager, plans, and the
//! cables that an advice pulls. A listener hears what happens, and may write it down.
//!
//! What each command does stands in `script_told`, and what is printed in `script_text`. `script_run`
//! goes from line to line.
#![tactic(auto)]

mod advised;
mod bank;
mod bus;
mod laws;
mod listed;
mod listener;
mod looks;
mod managed;
mod planned;
mod steps;
mod table;
mod telling;
mod turns;
mod viewed;
mod waves;

pub use bus::Bus;
pub use laws::{
    each_config_comes_out, each_plan_comes_out, each_script_has_a_run, each_script_has_an_advice,
    each_waiting_node_becomes_root, entries_follow_on, maps_show_one_tree, plans_have_answers,
};
pub use listener::Silent;
pub use script_trace::Listener;
pub use steps::happens;
pub use table::NameTable;

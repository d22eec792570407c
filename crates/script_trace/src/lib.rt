//! What happens on the bus of a script, as text: states, roles, coins, IDs and signals; and the
//! same as a Value Change Dump (IEEE Std 1364-2005, 18.2) for waveform viewers (docs/VIEW.md). And
//! the laws that a script has one trace and one dump, exactly where it has a text.
//!
//! What happens in a turn stands in `specs/Step.antt`, what happens at a command and in a whole
//! script in `specs/Trace.antt`. `script_run` goes through the lines.
//!
//! Dumps are in the files `waves_*` and in the folders `waves`: `specs/waves/Value.antt` and
//! `Change.antt` say which variables there are and when a value is written, `Moment.antt` what a turn
//! and an act write, `Head.antt` what stands before, and `Waves.antt` what the dump of a script is.
#![tactic(auto)]

mod acts;
mod command;
mod laws;
mod legend;
mod listener;
mod node;
mod steps;
mod trace_listener;
mod watch;
mod waves_head;
mod waves_listener;
mod waves_node;
mod waves_port;
mod waves_value;

pub use acts::touched_by;
pub use command::put_command;
pub use laws::{
    acts_show_their_resets, each_node_is_shown, runs_are_told_once, scripts_have_one_dump,
    scripts_have_one_trace, turns_show_what_is_sent,
};
pub use legend::Legend;
pub use listener::{Listener, see_before_act, tally_after_act};
pub use node::state_number;
pub use steps::hear_turns;
pub use trace_listener::Trace;
pub use watch::{Seen, seen_before_act};
pub use waves_listener::Waves;

//! Scripts from line to line: nodes are declared, the bus runs, and settles, is advised, traced or
//! dumped at the end; what is answered to a script, and the line of its fault.
//!
//! A script names nodes, plugs and pulls cables, lets turns pass and asks for reports. What a line
//! says stands in `script_lines`, and what it does to a bus in `script_bus`; here the lines are gone
//! through, from the first to the end.
#![tactic(auto)]

mod draft;
mod laws;
mod line;
mod reading;
mod readings;
mod run;
mod script;
mod stage;

pub use laws::{scripts_have_one_view, told_texts_are_printed};
pub use line::{kind_word, script_line};
pub use readings::{
    advise_script, dump_script, graph_script, json_script, list_script, run_script, trace_script,
};
pub use script_lines::{
    Command, Kind, LineStop, ScriptFault, ScriptStop, parse_line, parse_line_with,
};
pub use script_made::make_script;
pub use script_text::{maps_text, report_text, summary};
pub use topology_stack::OutOfMemory;

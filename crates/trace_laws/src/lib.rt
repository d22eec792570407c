//! A law: the trace of a script is the lines of events, one behind the other, as `trace_event` reads them.
#![tactic(auto)]

mod laws;

pub use laws::traces_are_of_events;

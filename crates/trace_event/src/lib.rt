//! The lines of a trace read back, one by one and without memory: what happened, when and at which
//! node.
#![tactic(auto)]

mod acts;
mod event;
mod happenings;
mod line;
mod words;

pub use event::{Event, Part, What};
pub use line::{Found, event_at};

//! The form `busview import`: what holds the self-IDs of one bus and isn't a capture, as text or as bytes, and the
//! capture of it (docs/CAPTURES.md).
#![tactic(auto)]

mod bytes;
mod fault;
mod form;
mod image;
mod import;
mod laws;
mod line;
mod lines;
mod list;
mod order;
mod outcome;
mod show;
mod status;
mod stop;
mod taken;
mod text;
mod words;

pub use fault::{FaultKind, ImportFault};
pub use form::asks_import;
pub use laws::one_import;
pub use line::kind_word;
pub use outcome::Outcome;
pub use show::show_import;
pub use status::import_status;
pub use stop::StreamStop;
pub use taken::{Container, Layout, Order, Taken, TextForm};
pub use topology_stack::OutOfMemory;

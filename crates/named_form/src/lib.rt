//! The bus of a capture with the names of its nodes, which stand in a file of their own (docs/VIEW-CAPTURES.md).
#![tactic(auto)]

mod bus;
mod fault;
mod file;
mod form;
mod laws;
mod lines;
mod mentions;
mod outcome;
mod show;
mod status;
mod stop;

pub use fault::{NamesFault, NamesFaultKind};
pub use form::{NamedForm, named_form};
pub use laws::named_graphs_are_dot;
pub use outcome::{Input, Outcome};
pub use show::show_named;
pub use status::named_status;
pub use stop::NamedStop;

//! The words of `busview flawed`, and the capture that it writes (docs/VIEW.md).
#![tactic(auto)]

mod form;
mod status;
mod written;

pub use form::FlawedForm;
pub use status::flawed_status;
pub use written::{FlawedStop, write_flawed};

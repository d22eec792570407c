//! The words of `busview diff`, and what differs between two captures (docs/VIEW.md).
#![tactic(auto)]

mod difference;
mod form;
mod outcome;
mod refused;
mod show;
mod status;
mod stop;

pub use difference::reading_of;
pub use form::{DiffForm, diff_form};
pub use outcome::{Outcome, Side};
pub use show::show_difference;
pub use status::diff_status;
pub use stop::DiffStop;

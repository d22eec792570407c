//! The top call of `busview`: words and the bytes of an input in, a status and a view out.
#![tactic(auto)]

mod answer;
mod asked;
mod explain;
mod form;
mod help;
mod laws;
mod logs;
mod refusal;
mod sentence;
mod top;

pub use form::{CaptureView, ExplainForm, VIEW_USAGE, ViewForm};
pub use help::VIEW_HELP;
pub use laws::{
    captures_are_of_reports, faults_tell_their_lines, make_sums_up_the_script, one_view,
};
pub use top::view_main;

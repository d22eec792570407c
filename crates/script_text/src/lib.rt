//! The texts of reports, maps, plans and the answers of commands, and the summary of a text.
//!
//! Each is said of a value and of the names of nodes. What a script does to a bus stands in
//! `script_told` and `script_bus`.
#![tactic(auto)]

mod answers;
mod feed;
mod last_report;
mod laws;
mod maps;
mod plan;
mod report;

pub use answers::{bid_text, csr_text, grant_text};
pub use feed::first_feed;
pub use last_report::summary;
pub use laws::{
    maps_have_texts, plans_exist, reports_can_be_shown, reports_have_one_text, reports_have_texts,
    settled_worlds_have_texts,
};
pub use maps::maps_text;
pub use plan::plan_line;
pub use report::{names_in, put_name, put_names, put_numbered, report_text, tree_of};
pub use topology_stack::{Name, NameList, OutOfMemory};

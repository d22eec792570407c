//! What a bus settles to: its quiet turns are done, and the outcome of each component is read; and
//! a plan is carried out: its packet is sent, and the bus settles anew.
//!
//! `specs/` has what is reported: `Reported` of the outcome of a component, `Report` of a whole
//! world. What a component may settle to is in `cable_world/specs/Outcome.antt`. `Planned` has what a
//! plan asks of a bus, and what it makes of it.
#![tactic(auto)]

mod carrying;
mod contention;
mod laws;
mod part;
mod quiet;
mod report;
mod settling;
mod suiting;
mod tree;

pub use cabling::OutOfMemory;
pub use carrying::settle_plan;
pub use laws::{
    hops_stay, quiet_turns_settle, reports_are_one, reports_are_outcomes, reports_are_read_back,
    reports_exist, walks_exist,
};
pub use quiet::{quiet_turns, quiet_turns_for};
pub use report::{Outcome, Part, PartList, Report};
pub use settling::{report_of, settle};
pub use suiting::{plans_come_out, plans_suit};

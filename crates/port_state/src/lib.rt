//! The step table of a node's port machine with all its rows (IEEE Std 1394-1995 and 1394a-2000,
//! cable environment, states R0 to A0), which the crates of its phases do, and the trait that every
//! machine meets (docs/MODEL.md).
//!
//! `specs/` has the step table itself, in `Entry`, `Config`, `Heard` and `Tick` with the rows of
//! `Resetting`, `TreeIdentify` and `SelfIdentify`. Each machine of the crates above is a
//! `PortMachine`, and does these steps to its record.
#![tactic(auto)]

mod coins;
mod idle_laws;
mod machine;
mod outbox;
mod pairs;
mod port_set;
mod port_words;
mod ports;
mod range_laws;
mod ranges;
mod sends;
mod signal;
pub mod states;
mod step_laws;
mod timing;
mod view;

pub use coins::Coins;
pub use idle_laws::idle_ticks;
pub use machine::PortMachine;
pub use outbox::{Outbox, Sent};
pub use pairs::Pairs;
pub use port_set::PortSet;
pub use ports::{PortView, PortViews};
pub use range_laws::{ranges_are_suitable, standard_ranges_are_suitable, standard_times_are_few};
pub use ranges::{Misfit, TimeRanges};
pub use sends::Sends;
pub use signal::{Level, Phase, Signal};
pub use step_laws::{
    cables_by_number, coins_repeat, config_is_valid, ports_by_number, power_on_is_valid,
    sends_by_port, shown_node_has_packets, steps_are_sound, usual_in_range, what_stays,
};
pub use timing::Timing;
pub use view::View;

//! The world of cables: wires, acts and turns, what a bus may settle to, and `World`, which runs
//! machines (docs/MODEL.md).
//!
//! `specs/` has the definitions: `Wire` and `World` say what there is, `Turn` and `Act` what
//! happens, `Run` what comes of it from power-on, `Outcome` what a bus may settle to. A world that
//! does so is a `WorldRun`.
#![tactic(auto)]

mod act;
mod acting;
mod all_nodes;
pub mod laws;
mod nodes;
pub mod parts;
mod rows;
mod run;
mod signals;
mod start;
mod steps;
mod tally;
mod time_laws;
mod wire;
mod world;

pub use act::{Act, ActStop};
pub use cabling::OutOfMemory;
pub use laws::{
    acts_keep, outcomes_are_one, quiet_turns_add_up, resets_end, still_turns_pass, times_stay,
    turn_by_number, turn_keeps, turns_add_up, worlds_come_of_power_on, worlds_stay_lawful,
    worlds_stay_reached,
};
pub use run::{ShowsWires, WorldRun};
pub use signals::Signals;
pub use time_laws::times_suit;
pub use wire::Travelling;
pub use world::World;

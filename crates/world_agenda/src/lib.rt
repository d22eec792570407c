//! `AgendaWorld`, a world of cables which visits a node only where something happens to it, and
//! says when nothing does.
#![tactic(auto)]

mod agenda;
mod clocks;
mod heard;
mod live;
mod node;
mod nodes;
mod still;

pub use agenda::AgendaWorld;
pub use cabling::OutOfMemory;
pub use still::TellsStillTurns;

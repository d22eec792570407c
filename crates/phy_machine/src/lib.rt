//! The machines of a node: the one that runs, under the names of two kinds, and either of them.
//! Each meets `PortMachine`; no crate above knows which is there.
//!
//! `node` does the calls to a record, `idle` tells how long nothing happens, and `clock` in which turns
//! a clock ticks.
#![tactic(auto)]

mod any;
mod clock;
mod field;
mod idle;
mod node;
mod packed;
mod spec;

pub use any::AnyMachine;
pub use field::FieldMachine;
pub use packed::PackedMachine;
pub use spec::NodeSpec;

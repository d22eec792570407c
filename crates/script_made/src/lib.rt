//! The script that is made for a number of nodes and a seed, which has no fault. There are two laws
//! of it: what its lines say, and that its run has no fault.
#![tactic(auto)]

mod laws;
mod made;

pub use laws::{made_is_read, made_scripts_have_no_fault};
pub use made::make_script;
pub use topology_stack::OutOfMemory;

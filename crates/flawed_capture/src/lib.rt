//! Captures with a flaw: the list of a made bus, changed so that it has a fault of a
//! given kind (docs/VECTORS.md).
#![tactic(auto)]

mod change;
mod few;
mod flaw;
mod flawed;
mod judged;
mod made;
mod node;
mod words;

pub use few::few_nodes_have_no_such_flaw;
pub use flaw::{Flaw, FlawStop, faults_have_their_kinds_word};
pub use flawed::flawed_capture;
pub use judged::flaw_of;
pub use topology_stack::OutOfMemory;

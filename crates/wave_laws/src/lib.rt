//! A law: a dump of a script, read back as a Value Change Dump, shows at each moment of the run what the
//! nodes and their ports show then.
#![tactic(auto)]

mod laws;

pub use laws::{dumps_show_the_run, values_are_apart};

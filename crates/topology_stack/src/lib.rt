//! Bus trees: read from the self-ID packets of a bus, written back, and shown as text.
//!
//! After a bus reset the nodes of a FireWire bus identify themselves one after the other, each
//! child before its parent, in the order of their ports (IEEE Std 1394-1995, self identify). The
//! list of their packets tells the whole tree of the bus.
#![tactic(auto)]

mod answers;
mod fault;
mod links;
mod manager;
mod name;
mod number;
mod reader;
mod reading;
mod slots;
mod text;
mod tree;
mod waiting;
mod writing;

pub use answers::{one_answer, one_tree};
pub use fault::{TreeFault, TreeStop};
pub use manager::elect;
pub use name::{Name, NameList};
pub use number::{put_hex, put_number};
pub use quad_lanes::OutOfMemory;
pub use reader::TreeReader;
pub use text::tree_text;
pub use tree::{BusTree, read_tree, read_tree_by, read_tree95};
pub use writing::write_tree;

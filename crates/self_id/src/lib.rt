//! The one to four self-ID packets of a node, both ways, by either standard (IEEE Std 1394-1995 and
//! IEEE 1394a-2000, self-ID packets).
#![tactic(auto)]

mod fault;
mod group;
mod node;
mod packets;
mod quad_group;
mod slots;
mod standard;
mod writing;

pub use fault::GroupFault;
pub use group::{read_group, read_group_into, read_group_of, read_group95};
pub use node::{Attrs, PortList, PortStatus, SelfId};
pub use quad_group::QuadGroup;
pub use slots::{count_down, count_up, slot_count};
pub use standard::Standard;
pub use writing::write_group;

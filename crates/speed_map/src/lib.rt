//! The least speed of each path of a bus, and the image of its speed map (IEEE Std 1394-1995,
//! SPEED_MAP).
#![tactic(auto)]

mod fault;
mod laws;
mod paths;
mod reading;
mod row;
mod same_bus;
mod sealed;
mod sweeps;

pub use fault::ImageFault;
pub use laws::rows_exist;
pub use paths::one_path;
pub use quad_lanes::OutOfMemory;
pub use reading::{MapParts, read_image};
pub use same_bus::equal_lists_make_one_bus;
pub use sealed::image;
pub use sweeps::{parent_of, rows};

//! The topology map of a bus as an image of quadlets (IEEE Std 1394-1995, TOPOLOGY_MAP), and the
//! length and CRC that stand before each image (IEEE Std 1212).
#![tactic(auto)]

mod crc;
mod fault;
mod laws;
mod map;
mod sealed;

pub use crc::crc16;
pub use fault::{ImageFault, OutOfMemory};
pub use laws::images_exist;
pub use map::{MapParts, image, read_image};
pub use sealed::seal;

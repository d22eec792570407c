//! The six PHY packets (IEEE 1394a-2000, PHY packets), one quadlet both ways; their bits are in
//! `specs/Packet.antt`.
//!
//! A PHY packet is a quadlet and its bitwise inverse; this crate knows the first of the two.
#![tactic(auto)]

mod packet;
mod quadlet;

pub use packet::PhyPacket;
pub use quadlet::{decode, encode, is_packet_zero, is_valid};

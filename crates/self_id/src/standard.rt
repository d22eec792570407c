//! The two standards that say how a node shows itself.

/// By which standard the packets of a group are read. Packet zero and packet n = 0 are the same in
/// both.
#[derive(Clone, Copy, Debug, PartialEq, Eq)]
pub enum Standard {
    /// IEEE Std 1394-1995: 3, 11, 19 or 27 slots in up to four packets. Each further packet has
    /// eight slots.
    Ieee1995,
    /// IEEE Std 1394a-2000: 3, 11 or 16 slots in up to three packets. Packet n = 1 has five slots.
    Ieee2000,
}

//! Why no group stands at a place of a list.

/// The first rule of a group that the packets at a place break.
///
/// A place `at` counts quadlets of the list from 0. It is that of the packet at fault, and for
/// `TwoParents` that of the group's first packet.
#[derive(Clone, Copy, Debug, PartialEq, Eq)]
pub enum GroupFault {
    /// The quadlet is no self-ID packet.
    NotSelfId { at: usize },
    /// The packet has the phy_ID `found` in place of `wanted`.
    WrongId { at: usize, found: u8, wanted: u8 },
    /// The packet isn't the next one of its group: packet zero, then n = 0, n = 1 and, in a group of
    /// IEEE Std 1394-1995, n = 2.
    BadOrder { at: usize },
    /// The list ends where a further packet of the group is to stand.
    Cut { at: usize },
    /// More than one slot of the node leads to a parent.
    TwoParents { at: usize },
}

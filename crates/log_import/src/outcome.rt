//! What a log comes to of which one reset is wanted.

/// Where a reset stands in a log.
#[derive(Clone, Copy, Debug, PartialEq, Eq)]
pub struct Place {
    /// The line that begins it, counted from 1.
    pub line: u64,
    /// The number of the controller on its machine, or from 2^32 on its device.
    pub card: u64,
}

/// What a log comes to of which one reset is wanted.
#[derive(Clone, Copy, Debug, PartialEq, Eq)]
pub enum Outcome {
    /// The capture of the reset there was written.
    Written(Place),
    /// The log has only so many resets.
    TooFew(u64),
    /// At the reset there the controller says that it failed.
    IsError(Place),
    /// Of the reset there the log lacks so many packets.
    PacketsMissing(Place, u32),
}

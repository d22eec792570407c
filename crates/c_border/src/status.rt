//! What a call answers. Contracts have these numbers as digits.

/// The call did what it is for.
pub const OK: u32 = 0;

/// What was read has a fault, which is told.
pub const REFUSED: u32 = 1;

/// There was no memory.
pub const NO_MEMORY: u32 = 2;

/// A place that was given for what is told is too short. What it needs is told.
pub const TOO_SHORT: u32 = 3;

/// The standard is neither 1995 nor 2000.
pub const NO_STANDARD: u32 = 4;

/// No node is eligible as root: none has an active link and contends.
pub const NO_CANDIDATE: u32 = 5;

/// The list has to go on before it can be a bus tree's.
pub const INCOMPLETE: u32 = 6;

/// A number is past what it may be: a channel is 0 to 63, units are 0 to 4915, an ID is 0 to 62.
pub const OUT_OF_RANGE: u32 = 7;

/// The script has more than 1,048,576 bytes.
pub const TOO_LONG: u32 = 8;

/// The name isn't one that a node may have: 1 to 16 letters a to z, digits and underlines, a letter first.
pub const NO_NAME: u32 = 9;

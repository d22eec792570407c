//! What an input comes to.

use crate::fault::ImportFault;
use crate::taken::Taken;

/// What an input comes to.
#[derive(Clone, Copy, Debug, PartialEq, Eq)]
pub enum Outcome {
    /// The capture was written of what the input was taken for.
    Written(Taken),
    /// The input names no list of packets.
    Refused(ImportFault),
}

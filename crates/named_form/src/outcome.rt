//! What a capture and a file of names come to.

use crate::fault::NamesFault;

/// One of the two inputs.
#[derive(Clone, Copy, Debug, PartialEq, Eq)]
pub enum Input {
    /// The file of names.
    Names,
    /// The capture.
    Capture,
}

/// What a capture and a file of names come to.
#[derive(Clone, Copy, Debug, PartialEq, Eq)]
pub enum Outcome {
    /// The bus is shown with its names.
    Shown,
    /// The capture is refused, and the line of its fault is written.
    Refused,
    /// The file of names has this fault, and nothing is written.
    Misnamed(NamesFault),
}

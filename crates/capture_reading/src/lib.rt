//! Captures: bytes that are pairs of quadlets, each self-ID packet's before its bitwise inverse, read as the
//! bus tree that they spell, or refused with one fault and its line.
#![tactic(auto)]

mod capture;
mod fault;
mod laws;
mod line;
mod refusal;
mod text;

pub use capture::read_capture;
pub use fault::{CaptureFault, CaptureStop};
pub use laws::one_reading;
pub use line::fault_line;
pub use refusal::{Counts, Refusal, refusal_of};
pub use text::ShortText;
pub use topology_stack::OutOfMemory;

//! The registers of the isochronous resource manager: what a read, a write or a lock is answered,
//! and grants by them.
//!
//! The node that is elected isochronous resource manager keeps four registers (IEEE Std 1394-1995,
//! 8.3.2.3.6 to 8.3.2.3.8): who the bus manager is, how much bandwidth is left, and which of the 64
//! isochronous channels are free. Other nodes read them and change them by `compare_swap` locks.
//! A bus reset restores their initial values. Nothing here takes memory.
#![tactic(auto)]

mod access;
mod grant;
mod laws;
mod register;
mod registers;

pub use access::{Access, Answer, are_permitted, serve, serve_all};
pub use grant::{GrantFault, Seen, allocate, look, release};
pub use laws::attempts_come_to_one;
pub use register::Register;
pub use registers::{COMPARE_SWAP, Registers, Reply};

//! Quadlets, the 32-bit words of the bus: lists of them, the pairs of a capture, and kernels that
//! work on 16 quadlets or 64 bytes at a time.
#![tactic(auto)]

mod capture;
mod kernels;
mod list;
mod pairs;

pub use capture::{capture_is_read_back, capture_of, good_pairs_are_a_capture};
pub use kernels::{first_bad_pair, min_row, same_list};
pub use list::{OutOfMemory, QuadList};
pub use pairs::{PairFault, firsts, pairs_of, quads_of};

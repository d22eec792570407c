//! The root that suits a bus best, the configuration packet that makes it root, and the order of
//! the nodes after it.
#![tactic(auto)]

mod choice;
mod expected;
mod laws;
mod reach;

pub use choice::{RootPlan, choose};
pub use expected::expect;
pub use laws::best_roots_exist;

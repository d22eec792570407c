//! Which cables of a component to pull so that a tree is left, and how such an advice is judged.
//!
//! `specs/Cables.antt` says what cables join, `specs/Order.antt` in which order they stand,
//! `specs/Advised.antt` which of them are advised, and `specs/Certificate.antt` when an advice is valid.
#![tactic(auto)]

mod advice;
mod cable_list;
mod cables_in_order;
mod certificate;
mod groups;
mod laws;
mod marks;
mod pulling;

pub use advice::{Advice, advise};
pub use cable_list::CableList;
pub use cables_in_order::cables_of;
pub use cabling::OutOfMemory;
pub use certificate::check;
pub use laws::{advices_exist, no_fewer_pulls_do, pulls_leave_a_tree};
pub use pulling::pull_advised;

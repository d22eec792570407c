//! Laws: resets end, trees are taken and decided, loops time out, and who contends (docs/MODEL.md).
//!
//! The crate has laws alone, of worlds as `cable_world` defines them. `specs/` says what is so:
//! `Milestones` what holds of a world one after the other, `Turns` after how many turns, `Acyclic`
//! why a loop gets no root, `Rivals` and `Drawers` what two nodes that contend know of each other's
//! coins. `docs/MODEL.md` tells the argument.
#![tactic(auto)]

mod contention;
mod laws;
mod milestones;

pub use contention::{few_draw_coins, long_waits_win, worlds_stay_contested};
pub use laws::{levels_come_through, loops_stay_undecided, sets_have_ends, worlds_stay_acyclic};
pub use milestones::{
    loops_are_reported, resets_are_done, resets_are_over, trees_are_decided, trees_are_taken,
};

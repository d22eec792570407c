//! Laws beside the theorem: when signals arrive, what acts touch, when the steps of a bus are over,
//! what cablings show, and what the text of a tree says.
//!
//! The crate has laws alone, of worlds as `cable_world` defines them. `specs/` says what is so.
#![tactic(auto)]

mod laws;

pub use laws::{
    acts_by_number, acts_make_fresh, acts_touch_their_component, bus_trees_are_cabled,
    changes_are_noted, entries_end, loops_are_out, ready_nodes_are_first, rivals_are_alone,
    seen_trees_are_bus_trees, signals_arrive, texts_tell_trees, trees_are_at_rest,
    waiting_roots_settle, wirings_are_slots,
};

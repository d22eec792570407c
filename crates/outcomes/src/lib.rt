//! Laws: IDs and lists, the outcome of every component, forced roots, and the theorem,
//! `every_bus_settles` (docs/MODEL.md).
//!
//! `every_bus_settles` is the theorem: a bus that is left alone settles.
//!
//! The crate has laws alone, of worlds as `cable_world` defines them. `specs/` says what is so:
//! `Headline` the theorem, and which files it stands on; `Identify` what two ends of a cable know
//! of each other's lists, `WalkMarks` and `RootWalk` the walk of a tree node by node, `Numbered`
//! whose list has what, `Forced` a node that waits to become root, `Settled` which components
//! settle in how many turns. `docs/MODEL.md` tells the argument.
#![tactic(auto)]

mod laws;

pub use laws::{
    components_settle, components_stay_settled, configs_choose_roots, every_bus_settles,
    forced_roots_settle, lists_follow, loops_come_out, named_roots_are_outcomes,
    quiet_turns_are_enough, records_fit_self_identify, resets_spread, roots_have_walks,
    self_identify_goes_on, trees_rest, trees_settle, trees_stay, waiting_nodes_become_roots,
    walks_are_numbered, walks_stay, worlds_stay_identifying, worlds_stay_numbering,
};

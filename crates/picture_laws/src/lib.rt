//! A law: the picture of a script is a graph in DOT, with a node for each node of the bus and an edge for each
//! cable.
#![tactic(auto)]

mod laws;

pub use laws::pictures_are_dot;

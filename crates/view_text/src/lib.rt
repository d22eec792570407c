//! Texts that show a bus: packets field by field, the drawing of a tree, its graph, and the
//! sentences on what is refused (docs/VIEW.md).
#![tactic(auto)]

mod cable;
mod drawing;
mod gaps;
mod graph;
mod laws;
mod named;
mod node;
mod packet;
mod pairs;
mod sentence;
mod words;

pub use cable::{Cable, cables};
pub use drawing::tree_drawing;
pub use graph::{put_graph_head, tree_graph};
pub use laws::{cables_are_of_the_tree, each_node_hangs_on_one_cable, graphs_are_dot};
pub use named::put_named_tree;
pub use packet::put_packet;
pub use pairs::{Note, packets_of, pairs_text};
pub use sentence::{
    first_at, put_inverse_sentence, put_length_sentence, put_tree_sentence, second_at,
    tree_sentence,
};
pub use words::put_field;

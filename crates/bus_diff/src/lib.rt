//! Two buses compared as trees, and not by ID: which node is which, by a guess or along ports, what
//! went, came, moved or says something else, and the text of that.
//!
//! After a bus reset each node may have another ID, and another node may be the root. So nodes are matched by
//! how they hang together: along ports of the same number, from the two nodes from which this goes furthest.
//! That is a guess, and no contract says that it is the best. What is told of the guess is proved.
#![tactic(auto)]

mod along;
mod change;
mod comparing;
mod guess;
mod hanging;
mod laws;
mod links;
mod matching;
mod pair;
mod text;

pub use change::{Change, Quality};
pub use comparing::{Difference, compare, compare_along};
pub use laws::each_walk_begins_furthest;
pub use pair::Pair;
pub use text::changes_text;

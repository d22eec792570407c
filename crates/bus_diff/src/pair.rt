//! Pairs of nodes, and which nodes are in one.
ghost use Rattle.std.specs.Prelude.{◌≡◌};
ghost use Rattle.bus_diff.specs.Matching.{stays, stood, is_one};

/// A node that is in both buses.
#[derive(Clone, Copy, Debug, PartialEq, Eq)]
pub struct Pair {
    /// Its ID in the old bus.
    pub old: u8,
    /// Its ID in the new bus.
    pub new: u8,
}

/// Whether the node of the old bus with this ID is in the new one.
pub(crate) fn stays(pairs: &[Pair], id: u8) -> bool
    ensures { result ≡ stays pairs.now id }
{
    pairs.iter().any(|pair| pair.old == id)
}

/// Whether the node of the new bus with this ID was in the old one.
pub(crate) fn stood(pairs: &[Pair], id: u8) -> bool
    ensures { result ≡ stood pairs.now id }
{
    pairs.iter().any(|pair| pair.new == id)
}

/// Whether these are IDs of one node.
pub(crate) fn is_one(pairs: &[Pair], old: u8, new: u8) -> bool
    ensures { result ≡ is_one pairs.now old new }
{
    pairs.iter().any(|pair| pair.old == old && pair.new == new)
}

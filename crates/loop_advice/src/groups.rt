//! Nodes in groups, which cables join.
ghost use Rattle.std.specs.Prelude.{◌≡◌, ◌↔◌, ◌<◌, ℕ, IsTrue};
ghost use Rattle.loop_advice.specs.codings.Groups.{group, merged};

/// The most nodes of a cabling.
const MAX_NODES: usize = 63;

/// For each node the number of its group.
#[derive(Clone, Copy)]
pub(crate) struct Groups {
    of: [u8; MAX_NODES],
}

impl Groups {
    /// Each node is a group of its own.
    pub(crate) fn new() -> Groups
        ensures { (node : ℕ) → node < 63 → group result node ≡ node }
    {
        let mut of = [0; MAX_NODES];
        for node in 0..63u8 {
            of[node as usize] = node;
        }
        Groups { of }
    }

    /// Whether two nodes are in one group.
    pub(crate) fn are_joined(&self, a: u8, b: u8) -> bool
        requires a { a < 63 }
        requires b { b < 63 }
        ensures { IsTrue result ↔ (group self.now a ≡ group self.now b) }
    {
        self.of[a as usize] == self.of[b as usize]
    }

    /// Makes one group of the groups of two nodes.
    pub(crate) fn join(&mut self, a: u8, b: u8)
        requires a { a < 63 }
        requires b { b < 63 }
        ensures { (node : ℕ) → node < 63 →
            group self.new node
            ≡ merged (group self.old b) (group self.old a) (group self.old node) }
    {
        let into = self.of[a as usize];
        let from = self.of[b as usize];
        for number in self.of.iter_mut() {
            if *number == from {
                *number = into;
            }
        }
    }
}

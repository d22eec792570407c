//! The quadlets of one group.
ghost use Rattle.std.specs.Prelude.{◌≡◌, ◌<◌, ◌≤◌, [], ◌∷◌, ◌++◌, length};

use arrayvec::ArrayVec;
use std::marker::Model;

/// At most 4 quadlets.
#[derive(Debug, Drop)]
pub struct QuadGroup {
    items: ArrayVec<u32, 4>,
}

impl Model for QuadGroup {
    ghost use Rattle.std.specs.Prelude.{List, ℕ, length, ◌≤◌};

    ghost Value = { List ℕ };

    ghost view = { λ g. g.items.items };

    ghost invariant = { λ g. length g.items.items ≤ 4 };
}

impl QuadGroup {
    /// The empty list.
    pub fn new() -> QuadGroup
        ensures { result ≡ [] }
    {
        QuadGroup {
            items: ArrayVec::new(),
        }
    }

    /// Appends a quadlet.
    pub fn push(&mut self, quad: u32)
        requires { length self.old < 4 }
        ensures { self.new ≡ self.old ++ quad ∷ [] }
    {
        self.items.push(quad);
    }

    /// The quadlets in order.
    pub fn as_slice(&self) -> &[u32]
        ensures value { result.now ≡ self.now }
        ensures few { length result.now ≤ 4 }
    {
        self.items.as_slice()
    }
}

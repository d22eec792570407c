//! Lists of quadlets.
ghost use Rattle.std.specs.Prelude.{◌≡◌, [], ◌∷◌, ◌++◌, OnOk, OnErr};

use std::alloc::{AllocError, Global};
use std::marker::Model;

/// What a call answers that found no memory.
pub type OutOfMemory = AllocError;

/// A list of quadlets. In a contract a `QuadList` is the list of their values, each below 2^32.
#[derive(Debug, Drop)]
pub struct QuadList {
    items: Vec<u32>,
}

impl Model for QuadList {
    ghost use Rattle.std.specs.Prelude.{List, ℕ};

    ghost Value = { List ℕ };

    ghost view = { λ q. q.items.items };
}

impl QuadList {
    /// The empty list. It takes no memory until the first `push`.
    pub fn new(alloc: Global) -> QuadList
        ensures { result ≡ [] }
    {
        QuadList {
            items: Vec::new(alloc),
        }
    }

    /// Appends a quadlet. Where there is no memory for it the list stays as it was.
    pub fn push(&mut self, quad: u32) -> Result<(), OutOfMemory>
        ensures ok { OnOk result (self.new ≡ self.old ++ quad ∷ []) }
        ensures err { OnErr result (self.new ≡ self.old) }
    {
        self.items.push(quad)?;
        Ok(())
    }

    /// Appends quadlets, the first of them first. Where there is no memory for them the list stays
    /// as it was.
    pub fn extend_from_slice(&mut self, quads: &[u32]) -> Result<(), OutOfMemory>
        ensures ok { OnOk result (self.new ≡ self.old ++ quads.now) }
        ensures err { OnErr result (self.new ≡ self.old) }
    {
        self.items.extend_from_slice(quads)?;
        Ok(())
    }

    /// The quadlets in order.
    pub fn as_slice(&self) -> &[u32]
        ensures { result.now ≡ self.now }
    {
        self.items.as_slice()
    }
}

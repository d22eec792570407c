//! Lists of cables.
ghost use Rattle.std.specs.Prelude.{◌≡◌, [], ◌∷◌, ◌++◌, OnOk, OnErr};

use cabling::{Cable, OutOfMemory};
use std::alloc::Global;
use std::marker::Model;

/// A list of cables.
#[derive(Debug, Drop)]
pub struct CableList {
    items: Vec<Cable>,
}

impl Model for CableList {
    ghost use Rattle.std.specs.Prelude.{List};
    ghost use Rattle.cabling.specs.declared.cable.Cable.{Cable};

    ghost Value = { List Cable };

    ghost view = { λ list. list.items.items };
}

impl CableList {
    /// The empty list. It takes no memory until the first `push`.
    pub fn new(alloc: Global) -> CableList
        ensures { result ≡ [] }
    {
        CableList {
            items: Vec::new(alloc),
        }
    }

    /// Appends a cable. Where there is no memory for it the list stays as it was.
    pub fn push(&mut self, cable: Cable) -> Result<(), OutOfMemory>
        ensures ok { OnOk result (self.new ≡ self.old ++ cable ∷ []) }
        ensures err { OnErr result (self.new ≡ self.old) }
    {
        self.items.push(cable)?;
        Ok(())
    }

    /// The cables in order.
    pub fn as_slice(&self) -> &[Cable]
        ensures { result.now ≡ self.now }
    {
        self.items.as_slice()
    }
}

//! What the nodes of a script saw of a manager's registers.
ghost use Rattle.std.specs.Prelude.{◌≡◌, ◌<◌, None, length, replicate, slice_index_or, slice_set, IfOk, IsFalse};

use resource_manager::Seen;
use std::alloc::Global;
use std::marker::Model;
use topology_stack::OutOfMemory;

/// For each node what it saw last, where it keeps a look. In a contract it is the list of these.
#[derive(Drop)]
pub(crate) struct Looks {
    list: Vec<Option<Seen>>,
    // Whether some node may keep a look.
    some: bool,
    ghost none: { IsFalse some → list.items ≡ replicate (length list.items) None },
}

impl Model for Looks {
    ghost use Rattle.std.specs.Prelude.{List, Option};
    ghost use Rattle.resource_manager.specs.declared.grant.Seen.{Seen};

    ghost Value = { List (Option Seen) };

    ghost view = { λ l. l.list.items };
}

impl Looks {
    /// No looks of so many nodes.
    pub fn none(alloc: Global, nodes: usize) -> Result<Looks, OutOfMemory>
        ensures { IfOk result (λ looks. looks ≡ replicate nodes None) }
    {
        let mut list = Vec::with_capacity(alloc, nodes)?;
        for _ in 0..nodes {
            list.push(None)?;
        }
        Ok(Looks { list, some: false })
    }

    /// What a node saw last, where it keeps a look. The node exists.
    pub fn of(&self, node: u8) -> Option<Seen>
        requires { node < length self.now }
        ensures { result ≡ slice_index_or self.now node None }
    {
        self.list[node as usize]
    }

    /// A node keeps this look from now on, or none. The node exists.
    pub fn put(&mut self, node: u8, look: Option<Seen>)
        requires { node < length self.old }
        ensures { self.new ≡ slice_set self.old node look }
    {
        self.some = true;
        self.list[node as usize] = look;
    }

    /// No node keeps a look.
    pub fn drop_all(&mut self)
        ensures { self.new ≡ replicate (length self.old) None }
    {
        if self.some {
            self.list.fill(None);
            self.some = false;
        }
    }
}

//! The IDs at the other ends of slots.
ghost use Rattle.std.specs.Prelude.{◌≡◌, ◌+◌, ◌<◌, ◌≤◌, Some, [], ◌∷◌, ◌++◌, length, drop, take, slice_get};
ghost use Rattle.topology_stack.specs.Links.{set_all, total};

use crate::reading::MAX_NODES;
use arrayvec::ArrayVec;
use std::alloc::AllocError;
use std::marker::Model;

/// The IDs of each node's children, one node's behind the other's.
#[derive(Debug, Drop)]
pub(crate) struct ChildLists {
    ids: ArrayVec<u8, MAX_NODES>,
    /// Where the IDs of each node end.
    ends: ArrayVec<u8, MAX_NODES>,
}

impl Model for ChildLists {
    ghost use Rattle.std.specs.Prelude.{List, ℕ, ◌≤◌, length};
    ghost use Rattle.topology_stack.specs.Links.{cut, Rises};

    ghost Value = { List (List ℕ) };

    ghost view = { λ c. cut c.ids.items 0 c.ends.items };

    ghost invariant = { λ c. (length c.ids.items ≤ 63)
        × Rises (length c.ids.items) 0 c.ends.items };
}

/// The same lists. It takes no memory.
impl Clone for ChildLists {
    ghost is_clone = { λ lists copy. copy ≡ lists };

    ghost is_infallible = { λ _. Unit {0} };

    fn clone(&self) -> Result<ChildLists, AllocError> {
        Ok(ChildLists {
            ids: self.ids.clone()?,
            ends: self.ends.clone()?,
        })
    }
}

impl ChildLists {
    fn new() -> ChildLists
        ensures { result ≡ [] }
    {
        ChildLists {
            ids: ArrayVec::new(),
            ends: ArrayVec::new(),
        }
    }

    /// Appends the children of one node more, which has this ID, and gives them their parent.
    #[inline]
    fn push(&mut self, parents: &mut [u8], children: &[u8], id: u8)
        requires nodes { length self.old < 63 }
        requires room { total self.old + length children.now ≤ 63 }
        ensures lists { self.new ≡ self.old ++ children.now ∷ [] }
        ensures parents { parents.new ≡ set_all children.now id parents.old }
    {
        adopt(parents, &mut self.ids, children, id);
        self.ends.push(self.ids.len() as u8);
    }

    /// The children of the node with this ID.
    pub(crate) fn of(&self, id: usize) -> &[u8]
        requires { id < length self.now }
        ensures { slice_get self.now id ≡ Some result.now }
    {
        if id == 0 {
            return &self.ids[..self.ends[0] as usize];
        }
        let start = self.ends[id - 1] as usize;
        let end = self.ends[id] as usize;
        &self.ids[start..end]
    }
}

/// Gives these nodes their parent, and appends their IDs.
#[inline]
fn adopt(parents: &mut [u8], ids: &mut ArrayVec<u8, MAX_NODES>, children: &[u8], id: u8)
    requires { length ids.old.items + length children.now ≤ 63 }
    ensures parents { parents.new ≡ set_all children.now id parents.old }
    ensures ids { ids.new.items ≡ ids.old.items ++ children.now }
{
    for child in children {
        let place = *child as usize;
        if place < parents.len() {
            parents[place] = id;
        }
        ids.push(*child);
    }
}

/// The roots of the trees that wait for a parent, the latest last.
#[derive(Debug, Drop)]
pub(crate) struct Roots {
    ids: [u8; MAX_NODES],
    count: usize,
}

impl Model for Roots {
    ghost use Rattle.std.specs.Prelude.{List, ℕ, ◌≤◌, take};

    ghost Value = { List ℕ };

    ghost view = { λ r. take r.count r.ids };

    ghost invariant = { λ r. r.count ≤ 63 };
}

impl Roots {
    pub(crate) fn new() -> Roots
        ensures { result ≡ [] }
    {
        Roots {
            ids: [0; MAX_NODES],
            count: 0,
        }
    }

    /// All but the first ones, which are so many.
    #[inline]
    pub(crate) fn latest(&self, kept: usize) -> &[u8]
        requires { kept ≤ length self.now }
        ensures { result.now ≡ drop kept self.now }
    {
        &self.ids[kept..self.count]
    }

    /// Puts one root in the place of all but the first ones, which are so many.
    #[inline]
    pub(crate) fn join(&mut self, kept: usize, id: u8)
        requires room { kept < 63 }
        requires kept { kept ≤ length self.old }
        ensures { self.new ≡ take kept self.old ++ id ∷ [] }
    {
        self.ids[kept] = id;
        self.count = kept + 1;
    }
}

/// Parents and children by ID, as far as the nodes have come.
#[derive(Debug, Drop)]
pub(crate) struct Links {
    pub parents: ArrayVec<u8, MAX_NODES>,
    pub children: ChildLists,
}

/// The same links. It takes no memory.
impl Clone for Links {
    ghost is_clone = { λ links copy. copy ≡ links };

    ghost is_infallible = { λ _. Unit {0} };

    fn clone(&self) -> Result<Links, AllocError> {
        Ok(Links {
            parents: self.parents.clone()?,
            children: self.children.clone()?,
        })
    }
}

impl Links {
    /// The links of no nodes.
    pub(crate) fn new() -> Links
        ensures parents { result.parents.items ≡ [] }
        ensures children { result.children ≡ [] }
    {
        Links {
            parents: ArrayVec::new(),
            children: ChildLists::new(),
        }
    }

    /// Links one node more, at most 63 in all, with its children.
    #[inline]
    pub(crate) fn add(&mut self, children: &[u8])
        requires parents { length self.old.parents.items < 63 }
        requires children { length self.old.children < 63 }
        requires room { total self.old.children + length children.now ≤ 63 }
        ensures parents { self.new.parents.items ≡ set_all children.now
            (length self.old.parents.items) self.old.parents.items ++ 63 ∷ [] }
        ensures children { self.new.children ≡ self.old.children ++ children.now ∷ [] }
    {
        let id = self.parents.len() as u8;
        self.children.push(&mut self.parents, children, id);
        self.parents.push(63);
    }
}

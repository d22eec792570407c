//! What is reported of a bus.
ghost use Rattle.std.specs.Prelude.{◌≡◌, [], ◌∷◌, ◌++◌, OnOk, OnErr};

use cabling::{NodeSet, OutOfMemory, Walk};
use quad_lanes::QuadList;
use std::alloc::Global;
use std::marker::Model;

/// What a component came to. Nodes are given by their numbers.
#[derive(Debug, Drop)]
pub enum Outcome {
    /// A tree, whose root is this node. `list` is what every node has: the first quadlets of the
    /// self-ID packets. `order` has the node of each ID.
    Tree {
        root: u8,
        list: QuadList,
        order: Walk,
    },
    /// The ends of a cable, `a` below `b`, drew 32 coins at least, and the same first 32.
    Contention {
        a: u8,
        b: u8,
    },
    /// Cables form loops. The nodes are the core of the component, which isn't empty.
    Loop {
        nodes: NodeSet,
    },
}

/// A component, and what it came to.
#[derive(Debug, Drop)]
pub struct Part {
    /// Its nodes.
    pub nodes: NodeSet,
    /// The greatest number of coins that one of its nodes drew since that node's last reset.
    pub rounds: u16,
    /// The number of turns done when a list of one of its nodes last changed.
    pub changed: u32,
    /// What it came to.
    pub outcome: Outcome,
}

/// A list of parts.
#[derive(Debug, Drop)]
pub struct PartList {
    items: Vec<Part>,
}

impl Model for PartList {
    ghost use Rattle.std.specs.Prelude.{List};
    ghost use Rattle.settle.specs.declared.report.Part.{Part};

    ghost Value = { List Part };

    ghost view = { λ p. p.items.items };
}

impl PartList {
    /// The empty list. It takes no memory until the first `push`.
    pub fn new(alloc: Global) -> PartList
        ensures { result ≡ [] }
    {
        PartList {
            items: Vec::new(alloc),
        }
    }

    /// Appends a part. Where there is no memory for it the list stays as it was.
    pub fn push(&mut self, part: Part) -> Result<(), OutOfMemory>
        ensures ok { OnOk result (self.new ≡ self.old ++ part ∷ []) }
        ensures err { OnErr result (self.new ≡ self.old) }
    {
        self.items.push(part)?;
        Ok(())
    }

    /// The parts in order.
    pub fn as_slice(&self) -> &[Part]
        ensures { result.now ≡ self.now }
    {
        self.items.as_slice()
    }
}

/// What a bus came to.
#[derive(Debug, Drop)]
pub struct Report {
    /// The number of turns done.
    pub turn: u32,
    /// Its components by their least nodes.
    pub parts: PartList,
}

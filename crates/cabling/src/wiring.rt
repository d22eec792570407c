//! The table of cables.
ghost use Rattle.std.specs.Prelude.{◌≡◌, ℕ, ◌<◌, ◌≤◌, List, [], Option, Some, None, Ok, Err, length, map, slice_index, slice_set, slice_index_or, IfOk, IfErr, IsOk, OnOk, OnErr, ◌↔◌, replicate};
ghost use Rattle.cabling.specs.declared.cable.End.{End};
ghost use Rattle.cabling.specs.Wiring.{HasEnd, far, ports_of, IsCabling, ArePortCounts, without_cables};
ghost use Rattle.cabling.specs.Change.{Added, TakenOut, plug_fault, pull_fault};

use crate::cable::{Cable, CableFault, End};
use arrayvec::ArrayVec;
use quad_lanes::OutOfMemory;
use std::alloc::Global;
use std::marker::Model;

/// The far ends of a node's ports, at most 16.
#[derive(Debug, Drop)]
struct Ports {
    ends: ArrayVec<Option<End>, 16>,
}

impl Model for Ports {
    ghost use Rattle.std.specs.Prelude.{List, Option};
    ghost use Rattle.cabling.specs.declared.cable.End.{End};

    ghost Value = { List (Option End) };

    ghost view = { λ p. p.ends.items };
}

impl Ports {
    /// Ports without cables.
    fn new(count: u8) -> Ports
        requires { count ≤ 16 }
        ensures { result ≡ replicate count None }
    {
        let mut ends = ArrayVec::new();
        for _ in 0..count {
            ends.push(None);
        }
        Ports { ends }
    }

    fn as_slice(&self) -> &[Option<End>]
        ensures { result.now ≡ self.now }
    {
        self.ends.as_slice()
    }

    fn set(&mut self, port: u8, far: Option<End>)
        requires { port < length self.old }
        ensures { self.new ≡ slice_set self.old port far }
    {
        self.ends[port as usize] = far;
    }
}

/// Nodes with ports, and the cables between them.
///
/// It has at most 63 nodes, each with 1 to 16 ports. A cable has its ends at two different nodes,
/// and no port is in two cables.
#[derive(Debug, Drop)]
pub struct Cabling {
    nodes: Vec<Ports>,
}

impl Model for Cabling {
    ghost use Rattle.cabling.specs.Wiring.{Wiring, IsCabling};

    ghost Value = { Wiring };

    ghost view = { λ c. c.nodes.items };

    ghost invariant = { λ c. IsCabling c.nodes.items };
}

/// Each cable of a cabling leads from one node to another, and back.
pub fn cables_are_two_ended(c: &Cabling)
    ensures { IsCabling c.now }
{
    let _nodes = &c.nodes;
}

impl Cabling {
    /// Nodes with these numbers of ports, 1 to 16 each, and no cable. At most 63 nodes.
    pub fn new(alloc: Global, ports: &[u8]) -> Result<Cabling, OutOfMemory>
        requires few { length ports.now ≤ 63 }
        requires counts { ArePortCounts ports.now }
        ensures { IfOk result (λ c. c ≡ without_cables ports.now) }
    {
        let mut nodes = Vec::with_capacity(alloc, ports.len())?;
        for count in ports {
            nodes.push(Ports::new(*count))?;
        }
        Ok(Cabling { nodes })
    }

    /// The number of nodes.
    pub fn nodes(&self) -> u8
        ensures value { result ≡ length self.now }
        ensures few { result ≤ 63 }
    {
        self.nodes.len() as u8
    }

    /// The number of ports of a node, 1 to 16. The node exists.
    pub fn ports(&self, node: u8) -> u8
        requires { node < length self.now }
        ensures value { result ≡ length (ports_of self.now node) }
        ensures some { 1 ≤ result }
        ensures few { result ≤ 16 }
    {
        self.nodes[node as usize].as_slice().len() as u8
    }

    /// The other end of the cable at this end; `None` where no cable is plugged in. The end exists.
    pub fn far(&self, end: End) -> Option<End>
        requires { HasEnd self.now end }
        ensures { result ≡ far self.now end }
    {
        self.nodes[end.node as usize].as_slice()[end.port as usize]
    }

    /// The far ends of a node's ports, in rising order.
    pub(crate) fn ends(&self, node: u8) -> &[Option<End>]
        requires { node < length self.now }
        ensures value { result.now ≡ ports_of self.now node }
        ensures few { length result.now ≤ 16 }
        ensures cabling { IsCabling self.now }
    {
        self.nodes[node as usize].as_slice()
    }

    /// Why no cable can be plugged into these ends.
    fn plug_fault(&self, a: End, b: End) -> Option<CableFault>
        ensures { result ≡ plug_fault self.now a b }
    {
        if a.node >= self.nodes() {
            Some(CableFault::NoNode { end: a })
        } else if b.node >= self.nodes() {
            Some(CableFault::NoNode { end: b })
        } else if a.port >= self.ports(a.node) {
            Some(CableFault::NoPort { end: a })
        } else if b.port >= self.ports(b.node) {
            Some(CableFault::NoPort { end: b })
        } else if self.far(a).is_some() {
            Some(CableFault::InUse { end: a })
        } else if self.far(b).is_some() {
            Some(CableFault::InUse { end: b })
        } else if a.node == b.node {
            Some(CableFault::SameNode { node: a.node })
        } else {
            None
        }
    }

    /// Plugs a cable into two ends.
    ///
    /// The refusals are tried in this order, each for `a` and then for `b`: `NoNode`, `NoPort`,
    /// `InUse`; last comes `SameNode`. A refusal changes nothing.
    pub fn plug(&mut self, a: End, b: End) -> Result<(), CableFault>
        ensures added { OnOk result (Added self.old self.new a b) }
        ensures same { OnErr result (self.new ≡ self.old) }
        ensures ok { IsOk result ↔ (plug_fault self.old a b ≡ None) }
        ensures fault { IfErr result (λ f. plug_fault self.old a b ≡ Some f) }
    {
        match self.plug_fault(a, b) {
            Some(fault) => Err(fault),
            None => {
                self.nodes[a.node as usize].set(a.port, Some(b));
                self.nodes[b.node as usize].set(b.port, Some(a));
                Ok(())
            }
        }
    }

    /// Pulls the cable at an end, and answers it; its `a` is `end`.
    ///
    /// The refusals are tried in this order: `NoNode`, `NoPort`, `NotPlugged`. A refusal changes
    /// nothing.
    pub fn pull(&mut self, end: End) -> Result<Cable, CableFault>
        ensures from { IfOk result (λ cable. cable.a ≡ end) }
        ensures taken { IfOk result (λ cable. TakenOut self.old self.new end cable.b) }
        ensures same { OnErr result (self.new ≡ self.old) }
        ensures ok { IsOk result ↔ (pull_fault self.old end ≡ None) }
        ensures fault { IfErr result (λ f. pull_fault self.old end ≡ Some f) }
    {
        if end.node >= self.nodes() {
            return Err(CableFault::NoNode { end });
        }
        if end.port >= self.ports(end.node) {
            return Err(CableFault::NoPort { end });
        }
        let Some(other) = self.far(end) else {
            return Err(CableFault::NotPlugged { end });
        };
        self.nodes[end.node as usize].set(end.port, None);
        self.nodes[other.node as usize].set(other.port, None);
        Ok(Cable { a: end, b: other })
    }
}

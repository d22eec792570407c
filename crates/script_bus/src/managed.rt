//! Questions to the isochronous resource manager of a tree, and its maps.
ghost use Rattle.std.specs.Prelude.{◌≡◌, ◌<◌, ◌≤◌, ℕ, ◌==◌, Some, None, Ok, Err, List, codes, IfOk, IfErr, IfSome, OnOk, length, position};
ghost use Rattle.resource_manager.specs.Access.{IsPermitted, answer_of};
ghost use Rattle.script_told.specs.Bus.{values_at, put_values, after_access, put_look};
ghost use Rattle.script_told.specs.Step.{Accesses, Bids, DoesGrant, Looks, Managed, HasManager, seen_by, id_of};
ghost use Rattle.script_text.specs.ReportText.{IsNamedTree};
ghost use Rattle.script_text.specs.CommandText.{csr_text, grant_text};
ghost use Rattle.script_bus.specs.Running.{IsAsked, Stops, nothing, reported};
ghost use Rattle.resource_manager.specs.declared.access.Access.TheVariants as access;

use crate::bank::Bank;
use crate::bus::{Bus, ReportedTree, buses_are_sound};
use bus_manager::{Bid, attempt};
use resource_manager::{Access, Answer, Registers, Seen, look, serve};
use script_lines::{Kind, LineStop};
use script_text::{bid_text, csr_text, grant_text, tree_of};
use std::alloc::Global;
use topology_stack::{Name, OutOfMemory, elect, one_tree};

/// A node that asks the isochronous resource manager of its tree.
#[derive(Clone, Copy)]
pub(crate) struct Asked {
    /// The node.
    pub node: u8,
    /// Its ID.
    pub id: u8,
    /// The node of the manager.
    pub manager: u8,
}

/// The place of a node in a walk.
fn place_of(order: &[u8], node: u8) -> Option<usize>
    ensures value { result ≡ position (λ k. k == node) order.now }
    ensures within { IfSome result (λ place. place < length order.now) }
{
    order.iter().position(|k| *k == node)
}

/// The ID of a node of a tree.
fn id_of(tree: ReportedTree<'_>, node: u8) -> u8
    requires { length tree.order.now ≤ 63 }
    ensures value { result ≡ id_of (reported tree.entry) node }
    ensures few { result ≤ 62 }
{
    match place_of(tree.order.as_slice(), node) {
        Some(id) => id as u8,
        None => 0,
    }
}

impl Bus {
    /// The isochronous resource manager of a tree of these nodes, or none.
    fn manager(&self, alloc: Global, tree: ReportedTree<'_>) -> Result<Option<u8>, OutOfMemory>
        requires { IsNamedTree self.now.notes.names tree.root tree.list.now tree.order.now }
        ensures has { IfOk result (λ manager. HasManager (reported tree.entry) manager) }
        ensures within { IfOk result (λ manager.
            IfSome manager (λ node. node < length self.now.world.nodes)) }
    {
        buses_are_sound(self);
        let shown = tree_of(alloc, tree.list)?;
        one_tree();
        let order = tree.order.as_slice();
        match elect(&shown) {
            Some(id) => Ok(Some(order[id as usize])),
            None => Ok(None),
        }
    }

    /// The node with a name asks the manager of its tree.
    pub(crate) fn asked(&self, alloc: Global, name: &Name) -> Result<Asked, LineStop>
        ensures is { IfOk result (λ asked. IsAsked self.now name.now
            asked.node asked.id asked.manager) }
        ensures few { IfOk result (λ asked. asked.id ≤ 62) }
        ensures node { IfOk result (λ asked. asked.node < length self.now.world.nodes) }
        ensures manager { IfOk result (λ asked.
            asked.manager < length self.now.world.nodes) }
        ensures stop { IfErr result
            (Stops (Managed self.now name.now nothing)) }
    {
        let node = self.node(name)?;
        let tree = self.tree(node)?;
        match self.manager(alloc, tree)? {
            Some(manager) => Ok(Asked {
                node,
                id: id_of(tree, node),
                manager,
            }),
            None => Err(LineStop::Fault(Kind::NoManager)),
        }
    }

    /// The registers of a node.
    pub(crate) fn registers(&self, node: u8) -> Registers
        requires there { node < length self.now.world.nodes }
        ensures { result ≡ values_at node self.now }
    {
        let resets = self.resets(node);
        self.notes.banks[node as usize].after(resets)
    }

    /// Gives a node these registers.
    fn put_registers(&mut self, node: u8, registers: Registers)
        requires there { node < length self.old.world.nodes }
        ensures now { self.new
            ≡ put_values node registers self.old }
    {
        let resets = self.resets(node);
        self.notes.banks[node as usize] = Bank::used(resets, registers);
    }

    /// A call to the registers of a node.
    fn access(&mut self, node: u8, access: Access) -> Answer
        requires there { node < length self.old.world.nodes }
        requires permitted { IsPermitted access }
        ensures answer { result ≡ answer_of (values_at node self.old) access }
        ensures now { self.new
            ≡ after_access node access self.old }
    {
        let mut registers = self.registers(node);
        let answer = serve(&mut registers, access);
        self.put_registers(node, registers);
        answer
    }

    /// What a node sees: its last look, which it drops, and else what the registers show now.
    fn take_look(&mut self, node: u8, manager: u8) -> Seen
        requires node { node < length self.old.world.nodes }
        requires manager { manager < length self.old.world.nodes }
        ensures value { result ≡ seen_by node manager self.old }
        ensures now { self.new
            ≡ put_look node None self.old }
    {
        let seen = match self.notes.looks.of(node) {
            Some(seen) => seen,
            None => look(&self.registers(manager)),
        };
        self.notes.looks.put(node, None);
        seen
    }

    /// A read, a write or a lock at the manager.
    pub(crate) fn csr(
        &mut self,
        alloc: Global,
        name: &Name,
        access: Access,
    ) -> Result<Vec<u8>, LineStop>
        requires permitted { IsPermitted access }
        ensures done { IfOk result (λ text. Managed self.old name.now
            (λ node id manager. Accesses self.old manager access
            (csr_text name.now))
            (Ok (self.new, text.items))) }
        ensures stop { IfErr result
            (Stops (Managed self.old name.now nothing)) }
    {
        let asked = self.asked(alloc, name)?;
        let answer = self.access(asked.manager, access);
        Ok(csr_text(alloc, name, answer)?)
    }

    /// The node keeps what the manager's registers now show.
    pub(crate) fn look(&mut self, alloc: Global, name: &Name) -> Result<Vec<u8>, LineStop>
        ensures done { IfOk result (λ text. Managed self.old name.now
            (λ node id manager. Looks self.old node manager)
            (Ok (self.new, text.items))) }
        ensures stop { IfErr result
            (Stops (Managed self.old name.now nothing)) }
    {
        let asked = self.asked(alloc, name)?;
        let seen = look(&self.registers(asked.manager));
        self.notes.looks.put(asked.node, Some(seen));
        Ok(Vec::new(alloc))
    }

    /// Allocates a channel and bandwidth at the manager.
    pub(crate) fn allocate(
        &mut self,
        alloc: Global,
        name: &Name,
        channel: u8,
        units: u16,
    ) -> Result<Vec<u8>, LineStop>
        requires channel { channel ≤ 63 }
        requires units { units ≤ 4915 }
        ensures done { IfOk result (λ text. Managed self.old name.now
            (λ node id manager. DoesGrant self.old node manager
            (λ seen. access.Allocate seen channel units) (grant_text (codes "allocate ") name.now))
            (Ok (self.new, text.items))) }
        ensures stop { IfErr result
            (Stops (Managed self.old name.now nothing)) }
    {
        let asked = self.asked(alloc, name)?;
        let seen = self.take_look(asked.node, asked.manager);
        let answer = self.access(
            asked.manager,
            Access::Allocate {
                seen,
                channel,
                units,
            },
        );
        Ok(grant_text(alloc, b"allocate ", name, answer)?)
    }

    /// Releases a channel and bandwidth at the manager.
    pub(crate) fn release(
        &mut self,
        alloc: Global,
        name: &Name,
        channel: u8,
        units: u16,
    ) -> Result<Vec<u8>, LineStop>
        requires channel { channel ≤ 63 }
        requires units { units ≤ 4915 }
        ensures done { IfOk result (λ text. Managed self.old name.now
            (λ node id manager. DoesGrant self.old node manager
            (λ seen. access.Release seen channel units) (grant_text (codes "release ") name.now))
            (Ok (self.new, text.items))) }
        ensures stop { IfErr result
            (Stops (Managed self.old name.now nothing)) }
    {
        let asked = self.asked(alloc, name)?;
        let seen = self.take_look(asked.node, asked.manager);
        let answer = self.access(
            asked.manager,
            Access::Release {
                seen,
                channel,
                units,
            },
        );
        Ok(grant_text(alloc, b"release ", name, answer)?)
    }

    /// The node attempts to become bus manager.
    pub(crate) fn bid(&mut self, alloc: Global, name: &Name) -> Result<Vec<u8>, LineStop>
        ensures done { IfOk result (λ text. Managed self.old name.now
            (λ node id manager. Bids self.old name.now id manager)
            (Ok (self.new, text.items))) }
        ensures stop { IfErr result
            (Stops (Managed self.old name.now nothing)) }
    {
        let asked = self.asked(alloc, name)?;
        let mut registers = self.registers(asked.manager);
        let found = match attempt(&mut registers, asked.id) {
            Bid::Won => 0x3F,
            Bid::Lost { old } => old,
        };
        self.put_registers(asked.manager, registers);
        Ok(bid_text(alloc, name, u32::from(found))?)
    }
}

//! The plan of a bus manager, and how it is carried out.
ghost use Rattle.std.specs.Prelude.{◌≡◌, ◌<◌, ◌+◌, ◌++◌, ◌==◌, ℕ, List, [], All, nat_lt, true, false, Some, None, Ok, IfOk, IfErr, OnOk, IsTrue, IsFalse, length};
ghost use Rattle.topology_stack.specs.Elect.{elected};
ghost use Rattle.cabling.specs.Walk.{IsWalk};
ghost use Rattle.cable_world.specs.Unchanged.{TurnsPass};
ghost use Rattle.settle.specs.Report.{quiet_turns_of};
ghost use Rattle.settle.specs.Planned.{SuitsTree};
ghost use Rattle.script_told.specs.Bus.{tree_with, values_at};
ghost use Rattle.root_plan.specs.Plan.{IsPlan};
ghost use Rattle.script_text.specs.PlanText.{all_in, plan_numbers, plan_nodes, plan_line};
ghost use Rattle.script_text.specs.ReportText.{IsNamedTree};
ghost use Rattle.script_told.specs.Step.{Acts, Does, HasManager, config_of, node_with};
ghost use Rattle.script_trace.specs.Step.{seen_before_act};
ghost use Rattle.script_bus.specs.Running.{Stops, reported};
ghost use Rattle.script_trace.specs.News.{picked};
ghost use Rattle.script_bus.specs.Heard.{Hears};
ghost use Rattle.script_bus.specs.Viewed.{IsTextOf};
ghost use Rattle.script_bus.specs.codings.Standing.{StandsAs, IsPlanned, IsPacketSent, IsSentHeard};
ghost use Rattle.script_bus.specs.codings.Doing.{IsReady};
ghost use Rattle.script_lines.specs.declared.command.Command.TheVariants as command;

use crate::bus::{Bus, ReportedTree, buses_are_sound};
use crate::managed::Asked;
use cable_world::Act;
use cabling::{NodeSet, Walk, components_exist};
use outcomes::trees_stay;
use resource_manager::Register;
use root_plan::{RootPlan, choose, expect};
use script_lines::{Command, Kind, LineStop};
use script_text::{plan_line, reports_have_one_text, tree_of};
use script_trace::{Listener, Seen};
use settle::{plans_suit, quiet_turns_settle};
use std::alloc::Global;
use topology_stack::{BusTree, Name, OutOfMemory, one_tree};

/// A plan and its line.
#[derive(Drop)]
pub(crate) struct Planned {
    pub plan: RootPlan,
    pub line: Vec<u8>,
}

/// The plan for a tree, in which some node is elected.
fn chosen(tree: &BusTree) -> RootPlan
    requires { elected tree.now ≡ None → ⊥ }
    ensures { IsPlan tree.now result }
{
    choose(tree).unwrap()
}

/// A line, and behind it a report.
pub(crate) fn joined(mut line: Vec<u8>, report: &[u8]) -> Result<Vec<u8>, OutOfMemory>
    ensures { IfOk result (λ text. text.items ≡ line.items ++ report.now) }
{
    line.extend_from_slice(report)?;
    Ok(line)
}

/// The command whose packet is that of a plan.
fn packet_of(name: &Name, plan: &RootPlan) -> Result<Command, OutOfMemory>
    ensures { IfOk result (λ packet. packet
        ≡ command.Config name.now (Some plan.now.root_id) (Some plan.now.gap)) }
{
    Ok(Command::Config {
        name: name.clone()?,
        root_id: Some(plan.root_id),
        gap: Some(plan.gap),
    })
}

impl Bus {
    /// Fails where the node that asks isn't the bus manager of its tree.
    pub(crate) fn check_bus_manager(&self, asked: Asked) -> Result<(), LineStop>
        requires manager { asked.manager < length self.now.world.nodes }
        ensures is { OnOk result
            (((values_at asked.manager self.now).bus_manager_id
            == asked.id) ≡ true) }
        ensures other { IfErr result (λ stop. (stop ≡ LineStop.Fault Kind.NotManager)
            × (((values_at asked.manager self.now).bus_manager_id
            == asked.id) ≡ false)) }
    {
        let id = self.registers(asked.manager).value(Register::BusManagerId);
        if id != u32::from(asked.id) {
            return Err(LineStop::Fault(Kind::NotManager));
        }
        Ok(())
    }

    /// The component of a node stands as the tree that was reported.
    fn stands(&self, node: u8, tree: ReportedTree<'_>)
        requires there { node < length self.now.world.nodes }
        requires settled { tree_with node self.now.notes ≡ Some (reported tree) }
        ensures { StandsAs self.now.world node (reported tree.entry) }
    {
        buses_are_sound(self);
        trees_stay();
        components_exist();
    }

    /// The nodes of a tree in the order in which they identify themselves once a plan's root is root.
    fn expected(&self, node: u8, tree: ReportedTree<'_>, plan: &RootPlan) -> Walk
        requires stands { StandsAs self.now.world node (reported tree) }
        requires place { plan.now.root_id < length tree.order.now }
        ensures walk { IsWalk self.now.world.cabling
            (node_with (reported tree.entry) plan.now.root_id) result }
        ensures nodes { All (λ k. k < length self.now.notes.names) result }
    {
        buses_are_sound(self);
        match expect(self.cabling(), tree.order, plan) {
            Ok(walk) => walk,
            Err(_) => unreachable!(),
        }
    }

    /// The plan for the tree of a node, and its line.
    pub(crate) fn planned(
        &self,
        alloc: Global,
        name: &Name,
        node: u8,
        tree: ReportedTree<'_>,
    ) -> Result<Planned, OutOfMemory>
        requires there { node < length self.now.world.nodes }
        requires named { IsNamedTree self.now.notes.names tree.root tree.list.now tree.order.now }
        requires settled { tree_with node self.now.notes ≡ Some (reported tree) }
        requires managed { (manager : ℕ) × HasManager (reported tree) (Some manager) }
        ensures is { IfOk result (λ planned. IsPlanned self.now name.now
            (reported tree.entry) planned.plan planned.line.items) }
        ensures suits { IfOk result (λ planned.
            SuitsTree self.now.world node planned.plan) }
    {
        buses_are_sound(self);
        one_tree();
        self.stands(node, tree);
        plans_suit(self.world(), node);
        let shown = tree_of(alloc, tree.list)?;
        let plan = chosen(&shown);
        let expected = self.expected(node, tree, &plan);
        let order = tree.order.as_slice();
        let root = order[plan.root_id as usize];
        let line = plan_line(alloc, self.names(), name, root, &plan, expected.as_slice())?;
        Ok(Planned { plan, line })
    }

    /// The packet of a plan comes, as `tell_before` has it.
    fn tell_packet<L: Listener>(
        &self,
        alloc: Global,
        name: &Name,
        plan: &RootPlan,
        touched: NodeSet,
        listener: &mut L,
    ) -> Result<Vec<Seen>, OutOfMemory>
        ensures seen { IfOk result (λ seen. IsTrue L.looks → seen.items
            ≡ picked touched 0 (seen_before_act self.now.world 0 self.now.world.nodes)) }
        ensures written { OnOk result (L.written listener.new ≡ L.written listener.old
            ++ L.voice.command self.now.world.turns
            (command.Config name.now (Some plan.now.root_id) (Some plan.now.gap))) }
    {
        let packet = packet_of(name, plan)?;
        let seen = self.tell_before(alloc, &packet, touched, listener)?;
        Ok(seen)
    }

    /// A node sends the packet of a plan.
    fn send_packet(self, node: u8, plan: &RootPlan) -> Result<Bus, OutOfMemory>
        requires { SuitsTree self.world node plan.now }
        ensures done { IfOk result (λ bus. Acts self
            (config_of node (Some plan.now.root_id) (Some plan.now.gap)) (Ok (bus, []))) }
        ensures passed { IfOk result (λ bus. TurnsPass 0 self.world bus.world) }
    {
        buses_are_sound(&self);
        components_exist();
        self.act_done(&Act::Config {
            from: node,
            root_id: plan.root_id,
            force: true,
            gap: Some(plan.gap),
        })
    }

    /// A node sends the packet of a plan, which a listener hears as a `config`.
    fn send<L: Listener>(
        self,
        alloc: Global,
        name: &Name,
        node: u8,
        plan: &RootPlan,
        listener: &mut L,
    ) -> Result<Bus, OutOfMemory>
        requires { SuitsTree self.world node plan.now }
        ensures sent { IfOk result (λ bus. IsPacketSent L.voice self name.now node plan.now bus
            (L.written listener.old) (L.written listener.new)) }
        ensures passed { IfOk result (λ bus. TurnsPass 0 self.world bus.world) }
    {
        buses_are_sound(&self);
        let touched = NodeSet::first(self.cabling().nodes());
        let seen = self.tell_packet(alloc, name, plan, touched, listener)?;
        let bus = self.send_packet(node, plan)?;
        bus.tell_after(touched, &seen, listener)?;
        Ok(bus)
    }

    /// A node sends the packet of a plan, and the bus settles and is reported.
    fn carry_out<L: Listener>(
        self,
        alloc: Global,
        name: &Name,
        node: u8,
        plan: &RootPlan,
        listener: &mut L,
    ) -> Result<Bus, OutOfMemory>
        requires suits { SuitsTree self.world node plan.now }
        requires within { nat_lt 2000000 (self.world.turns + quiet_turns_of self.world) ≡ false }
        ensures { IfOk result (λ bus. (text : List ℕ) × IsSentHeard L.voice self name.now node
            plan.now bus text (L.written listener.old) (L.written listener.new)) }
    {
        buses_are_sound(&self);
        let sent = self.send(alloc, name, node, plan, listener)?;
        buses_are_sound(&sent);
        let settled = sent.pass(alloc, listener)?;
        Ok(settled)
    }

    /// The plan of the bus manager with a name, where it can be carried out.
    fn ready(&self, alloc: Global, name: &Name) -> Result<(u8, Planned), LineStop>
        ensures is { IfOk result (λ r. IsReady self.now name.now r.0 r.1.plan r.1.line.items) }
        ensures stop { IfErr result (Stops (Does self.now (command.Plan name.now))) }
    {
        let asked = self.asked(alloc, name)?;
        self.check_bus_manager(asked)?;
        self.check_quiet_turns()?;
        let tree = self.tree(asked.node)?;
        let planned = self.planned(alloc, name, asked.node, tree)?;
        Ok((asked.node, planned))
    }

    /// `plan NAME`, whose line is answered; the text of the report behind it isn't made.
    pub fn do_plan<L: Listener>(
        self,
        alloc: Global,
        name: &Name,
        listener: &mut L,
    ) -> Result<(Bus, Vec<u8>), LineStop>
        ensures done { IfOk result (λ r. (report : List ℕ) × IsTextOf r.0 report
            × Does self (command.Plan name.now) (Ok (r.0, r.1.items ++ report))) }
        ensures heard { IfOk result (λ r. Hears L.voice self (command.Plan name.now) r.0
            (L.written listener.old) (L.written listener.new)) }
        ensures stop { IfErr result (Stops (Does self (command.Plan name.now))) }
    {
        let (node, planned) = self.ready(alloc, name)?;
        let bus = self.carry_out(alloc, name, node, &planned.plan, listener)?;
        Ok((bus, planned.line))
    }

    /// `plan NAME`
    pub(crate) fn plan<L: Listener>(
        self,
        alloc: Global,
        name: &Name,
        listener: &mut L,
    ) -> Result<(Bus, Vec<u8>), LineStop>
        ensures done { IfOk result (λ r. Does self (command.Plan name.now) (Ok (r.0, r.1.items))) }
        ensures heard { IfOk result (λ r. Hears L.voice self (command.Plan name.now) r.0
            (L.written listener.old) (L.written listener.new)) }
        ensures stop { IfErr result (Stops (Does self (command.Plan name.now))) }
    {
        reports_have_one_text();
        let (bus, line) = self.do_plan(alloc, name, listener)?;
        let report = bus.text(alloc)?;
        let text = joined(line, report.as_slice())?;
        Ok((bus, text))
    }
}

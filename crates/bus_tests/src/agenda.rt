//! A world that passes over turns makes few calls of its machines.
ghost use Rattle.std.specs.Prelude.{◌≡◌, ◌<◌, All, IfOk, length};
ghost use Rattle.phy_machine.specs.Field.{field_node};
ghost use Rattle.cable_world.specs.Times.{KeepsTime, longest_in_range};
ghost use Rattle.cable_world.specs.World.{IsNodeAtPowerOn};

use crate::nodes::{USUAL, spec};
use cable_world::{World, WorldRun};
use phy_machine::FieldMachine;
use port_state::{Outbox, PortMachine, Signal, Timing, View};
use self_id::Attrs;
use std::alloc::{AllocError, Global};
use std::cell::Cell;
use std::process::Abort;
use std::test::Fail;
use world_agenda::AgendaWorld;

/// A machine that counts its ticks and its passes.
#[derive(Drop)]
struct Counting<'a> {
    machine: FieldMachine,
    calls: &'a Cell<u32>,
}

impl Counting<'_> {
    fn count(&self) {
        self.calls.set(self.calls.get().wrapping_add(1));
    }
}

impl PortMachine for Counting<'_> {
    ghost use Rattle.phy_machine.specs.Field.{field_node, field_regular};

    ghost record_of = { λ m. field_node m.machine };

    fn on_signal_into(&mut self, port: u8, signal: Signal, out: &mut Outbox) {
        self.machine.on_signal_into(port, signal, out);
    }

    fn tick_into(&mut self, out: &mut Outbox) {
        self.count();
        self.machine.tick_into(out);
    }

    fn disturb_into(&mut self, out: &mut Outbox) {
        self.machine.disturb_into(out);
    }

    fn plugged_into(&mut self, port: u8, out: &mut Outbox) {
        self.machine.plugged_into(port, out);
    }

    fn pulled_into(&mut self, port: u8, out: &mut Outbox) {
        self.machine.pulled_into(port, out);
    }

    fn set_config(&mut self, root_id: u8, force: bool, gap: Option<u8>) {
        self.machine.set_config(root_id, force, gap);
    }

    fn view(&self) -> View {
        self.machine.view()
    }

    fn list(&self) -> &[u32] {
        self.machine.list()
    }

    fn attrs(&self) -> Attrs {
        self.machine.attrs()
    }

    fn timing(&self) -> Timing {
        self.machine.timing()
    }

    fn ports(&self) -> u8 {
        self.machine.ports()
    }

    fn idle_for(&self) -> u32 {
        self.count();
        self.machine.idle_for()
    }

    fn is_even(&self) -> bool {
        self.machine.is_even()
    }

    fn ticks_on(&self, past: u32) -> u32 {
        self.machine.ticks_on(past)
    }

    fn timer_after(&self, turns: u32) -> u16 {
        self.machine.timer_after(turns)
    }

    fn pass(&mut self, turns: u32) {
        self.count();
        self.machine.pass(turns);
    }

    ghost valid = { λ m. m.machine.valid };

    ghost regular = { λ m. field_regular m.machine };
}

/// A machine that was just powered on.
fn powered_on() -> FieldMachine
    ensures node { IsNodeAtPowerOn 4 (field_node result).state }
    ensures clock { KeepsTime (longest_in_range 4) (field_node result).state.timing
        (field_node result).clock }
{
    FieldMachine::new(spec(USUAL, 4))
}

/// One machine.
fn alone<M: PortMachine + Drop>(alloc: Global, machine: M) -> Result<Vec<M>, AllocError>
    requires node { IsNodeAtPowerOn 4 (M.record_of machine).state }
    requires clock { KeepsTime (longest_in_range 4) (M.record_of machine).state.timing
        (M.record_of machine).clock }
    ensures power_on { IfOk result (λ made.
        All (λ m. IsNodeAtPowerOn 4 (M.record_of m).state) made.items) }
    ensures clocks { IfOk result (λ made. All (λ m. KeepsTime (longest_in_range 4)
        (M.record_of m).state.timing (M.record_of m).clock) made.items) }
    ensures length { IfOk result (λ made. length made.items ≡ 1) }
{
    let mut made = Vec::new(alloc);
    made.push(machine)?;
    Ok(made)
}

/// Whether the one node shows the same in both worlds.
fn is_alike<V: WorldRun, W: WorldRun>(plain: &V, agenda: &W) -> bool
    requires plain { length (V.world plain.now).nodes ≡ 1 }
    requires agenda { length (W.world agenda.now).nodes ≡ 1 }
{
    let was = plain.view(0);
    let is = agenda.view(0);
    is.phase == was.phase
        && is.timer == was.timer
        && is.id == was.id
        && is.resets == was.resets
        && is.timed_out == was.timed_out
        && agenda.list(0) == plain.list(0)
        && agenda.changed(0) == plain.changed(0)
}

/// A million turns of the one node, which two worlds show alike.
fn a_million<V: WorldRun, W: WorldRun>(
    rt: &impl Abort,
    plain: &mut V,
    agenda: &mut W,
) -> Result<(), Fail>
    requires plain { length (V.world plain.old).nodes ≡ 1 }
    requires agenda { length (W.world agenda.old).nodes ≡ 1 }
{
    assert!(rt; plain.turns() == 0 && agenda.turns() == 0);
    plain.run_turns(1_000_000)?;
    agenda.run_turns(1_000_000)?;
    assert!(rt; is_alike(plain, agenda) && agenda.turns() == 1_000_000);
    Ok(())
}

#[test]
fn turns_in_which_nothing_happens_are_passed_over(rt: HostRuntime) -> Result<(), Fail> {
    let calls = Cell::new(0);
    let counting = Counting {
        machine: powered_on(),
        calls: &calls,
    };
    let mut agenda = AgendaWorld::new(rt.alloc(), alone(rt.alloc(), counting)?, 4)?;
    let mut plain = World::new(rt.alloc(), alone(rt.alloc(), powered_on())?, 4)?;
    a_million(&rt, &mut plain, &mut agenda)?;
    assert!(rt; calls.get() < 100);
    Ok(())
}

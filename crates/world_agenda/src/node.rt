//! A node that stands at a turn of its own.
ghost use Rattle.std.specs.Prelude.{◌≡◌, ◌+◌, ◌<◌, ◌≤◌, true};
ghost use Rattle.port_state.specs.Clock.{TicksFor, is_even, misses};
ghost use Rattle.port_state.specs.Group.{shown_attrs};
ghost use Rattle.port_state.specs.Idle.{IsIdleFor};
ghost use Rattle.world_agenda.specs.Clock.{caught_up};

use port_state::{Outbox, PortMachine, Signal, Timing, View};
use self_id::Attrs;

/// A machine with the turn at whose end it stands, and for how many turns from there nothing happens to
/// it unless it hears a signal, if not for more.
#[derive(Drop)]
pub struct AgendaNode<M: PortMachine> {
    pub machine: M,
    pub clock: u32,
    pub idle: u32,
    ghost rests: { IsIdleFor idle (M.record_of machine) },
}

impl<M: PortMachine> AgendaNode<M> {
    /// A machine at power-on.
    pub fn new(machine: M) -> AgendaNode<M>
        ensures machine { result.machine ≡ machine }
        ensures clock { result.clock ≡ 0 }
    {
        AgendaNode {
            machine,
            clock: 0,
            idle: 0,
        }
    }

    /// The turn to whose end nothing happens, unless a signal is heard, or an earlier one.
    pub fn end(&self) -> u32
        ensures { result ≤ self.now.clock + self.now.idle }
    {
        self.clock.saturating_add(self.idle)
    }

    /// The machine comes to the end of turn number `turns`.
    pub fn catch_up(&mut self, turns: u32)
        requires { turns ≤ self.old.clock + self.old.idle }
        ensures machine { M.record_of self.new.machine
            ≡ caught_up turns self.old.clock (M.record_of self.old.machine) }
        ensures clock { self.old.clock ≤ turns → self.new.clock ≡ turns }
        ensures end { self.new.clock + self.new.idle ≡ self.old.clock + self.old.idle }
    {
        let behind = turns.saturating_sub(self.clock);
        if behind > 0 {
            self.machine.pass(behind);
            self.idle -= behind;
            self.clock = turns;
        }
    }

    /// What the node shows after `turns` turns.
    pub fn view_at(&self, turns: u32) -> View
        requires { turns ≤ self.now.clock + self.now.idle }
        ensures { result
            ≡ (caught_up turns self.now.clock (M.record_of self.now.machine)).state.view }
    {
        let mut view = self.machine.view();
        view.timer = self.machine.timer_after(turns.saturating_sub(self.clock));
        view
    }

    /// Whether its clock misses no turn after the first `turns`.
    pub fn is_even_at(&self, turns: u32) -> bool
        ensures { result
            ≡ is_even (caught_up turns self.now.clock (M.record_of self.now.machine)).clock }
    {
        self.machine.is_even()
    }

    /// For how many turns after the first `turns` its clock misses none: the greatest number, up to
    /// 4,000,000.
    pub fn ticks_at(&self, turns: u32) -> u32
        ensures ticks { TicksFor result
            (caught_up turns self.now.clock (M.record_of self.now.machine)).clock }
        ensures none { result ≡ 0 →
            misses (caught_up turns self.now.clock (M.record_of self.now.machine)).clock ≡ true }
    {
        self.machine.ticks_on(turns.saturating_sub(self.clock))
    }

    /// Whether its clock misses the turn after `turns` turns.
    pub fn misses_at(&self, turns: u32) -> bool
        ensures { result
            ≡ misses (caught_up turns self.now.clock (M.record_of self.now.machine)).clock }
    {
        self.ticks_at(turns) == 0
    }

    /// Its list after `turns` turns.
    pub fn list_at(&self, turns: u32) -> &[u32]
        requires { turns ≤ self.now.clock + self.now.idle }
        ensures { result.now
            ≡ (caught_up turns self.now.clock (M.record_of self.now.machine)).state.list.items }
    {
        self.machine.list()
    }

    /// The attributes that it shows after `turns` turns.
    pub fn attrs_at(&self, turns: u32) -> Attrs
        requires { turns ≤ self.now.clock + self.now.idle }
        ensures { result ≡ shown_attrs
            (caught_up turns self.now.clock (M.record_of self.now.machine)).state }
    {
        self.machine.attrs()
    }
}

impl<M: PortMachine> PortMachine for AgendaNode<M> {
    ghost record_of = { λ n. M.record_of n.machine };

    fn on_signal_into(&mut self, port: u8, signal: Signal, out: &mut Outbox) {
        self.idle = 0;
        self.machine.on_signal_into(port, signal, out);
    }

    fn tick_into(&mut self, out: &mut Outbox) {
        self.machine.tick_into(out);
        self.idle = self.machine.idle_for();
    }

    fn disturb_into(&mut self, out: &mut Outbox) {
        self.idle = 0;
        self.machine.disturb_into(out);
    }

    fn plugged_into(&mut self, port: u8, out: &mut Outbox) {
        self.idle = 0;
        self.machine.plugged_into(port, out);
    }

    fn pulled_into(&mut self, port: u8, out: &mut Outbox) {
        self.idle = 0;
        self.machine.pulled_into(port, out);
    }

    fn set_config(&mut self, root_id: u8, force: bool, gap: Option<u8>) {
        self.idle = 0;
        self.machine.set_config(root_id, force, gap);
    }

    fn view(&self) -> View {
        self.machine.view()
    }

    fn list(&self) -> &[u32] {
        self.machine.list()
    }

    fn attrs(&self) -> Attrs {
        self.machine.attrs()
    }

    fn timing(&self) -> Timing {
        self.machine.timing()
    }

    fn ports(&self) -> u8 {
        self.machine.ports()
    }

    fn idle_for(&self) -> u32 {
        self.machine.idle_for()
    }

    fn is_even(&self) -> bool {
        self.machine.is_even()
    }

    fn ticks_on(&self, past: u32) -> u32 {
        self.machine.ticks_on(past)
    }

    fn timer_after(&self, turns: u32) -> u16 {
        self.machine.timer_after(turns)
    }

    fn pass(&mut self, turns: u32) {
        self.idle = 0;
        self.machine.pass(turns);
    }

    ghost valid = { λ n. M.valid n.machine };

    ghost regular = { λ n. M.regular n.machine };
}

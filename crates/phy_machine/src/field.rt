//! A machine that keeps the record of its node.
ghost use Rattle.std.specs.Prelude.{◌≡◌, ◌≤◌};
ghost use Rattle.port_state.specs.Clock.{every};
ghost use Rattle.port_state.specs.Valid.{IsValid};
ghost use Rattle.port_state.proofs.Lemmas.{valid_prop};
ghost use Rattle.phy_machine.specs.PowerOn.{IsSpec, node_of_spec, with_gap_reset};

use crate::clock::TickClock;
use crate::spec::NodeSpec;
use crate::{idle, node};
use port_state::states::NodeState;
use port_state::{Coins, Outbox, PortMachine, Signal, Timing, View};
use self_id::Attrs;

/// A machine that keeps its node's record, each part in a field of its own.
#[derive(Debug, Drop)]
pub struct FieldMachine {
    state: NodeState,
    coins: Coins,
    clock: TickClock,
    ghost valid: { IsValid state } by { valid_prop state },
}

impl FieldMachine {
    ghost use Rattle.phy_machine.specs.Field.{field_node};

    /// The machine of a node at power-on. The specification has 1 to 16 ports, and attributes that
    /// fit their bits with a delay of 0.
    pub fn new(spec: NodeSpec) -> FieldMachine
        requires { IsSpec spec }
        ensures { field_node result ≡ node_of_spec spec }
    {
        FieldMachine {
            state: node::power_on(spec.ports, spec.attrs, spec.force, spec.timing),
            coins: spec.coins,
            clock: TickClock::even(),
        }
    }

    /// The clock is slow from now on: it misses one of every `gap` + 1 turns, at least 1, the first of
    /// them after `first` turns more.
    pub fn slow_down(&mut self, gap: u32, first: u32)
        requires { 1 ≤ gap }
        ensures { field_node self.new ≡ record (field_node self.old) { clock = every gap first } }
    {
        self.clock = TickClock::slow(gap, first);
    }

    /// The node, just powered on, sets its gap count back to 63 at the second reset without a new
    /// configuration packet.
    pub fn reset_gaps(&mut self)
        ensures { field_node self.new ≡ with_gap_reset (field_node self.old) }
    {
        node::reset_gaps(&mut self.state);
    }
}

impl PortMachine for FieldMachine {
    ghost use Rattle.phy_machine.specs.Field.{field_node, field_regular};

    ghost record_of = { field_node };

    fn on_signal_into(&mut self, port: u8, signal: Signal, out: &mut Outbox) {
        node::on_signal(&mut self.state, port, signal, out);
    }

    fn tick_into(&mut self, out: &mut Outbox) {
        if self.clock.turn() {
            node::tick(&mut self.state, &mut self.coins, out);
        }
    }

    fn disturb_into(&mut self, out: &mut Outbox) {
        node::disturb(&mut self.state, out);
    }

    fn plugged_into(&mut self, port: u8, out: &mut Outbox) {
        node::plugged(&mut self.state, port, out);
    }

    fn pulled_into(&mut self, port: u8, out: &mut Outbox) {
        node::pulled(&mut self.state, port, out);
    }

    fn set_config(&mut self, root_id: u8, force: bool, gap: Option<u8>) {
        node::set_config(&mut self.state, root_id, force, gap);
    }

    fn view(&self) -> View {
        self.state.view
    }

    fn list(&self) -> &[u32] {
        self.state.list.as_slice()
    }

    fn attrs(&self) -> Attrs {
        node::attrs(&self.state)
    }

    fn timing(&self) -> Timing {
        self.state.timing
    }

    fn ports(&self) -> u8 {
        self.state.ports
    }

    fn idle_for(&self) -> u32 {
        self.clock.turns_before(idle::idle_for(&self.state))
    }

    fn is_even(&self) -> bool {
        self.clock.is_even()
    }

    fn ticks_on(&self, past: u32) -> u32 {
        self.clock.ticks_on(past)
    }

    fn timer_after(&self, turns: u32) -> u16 {
        node::later_timer(&self.state, self.clock.ticks_in(turns))
    }

    fn pass(&mut self, turns: u32) {
        let ticks = self.clock.go_on(turns);
        node::pass(&mut self.state, ticks);
    }

    ghost valid = { λ m. m.valid };

    ghost regular = { field_regular };
}

//! The machine of a node of kind `packed`.
ghost use Rattle.std.specs.Prelude.{◌≡◌, ◌≤◌};
ghost use Rattle.port_state.specs.Clock.{every};
ghost use Rattle.phy_machine.specs.PowerOn.{IsSpec, node_of_spec, with_gap_reset};

use crate::field::FieldMachine;
use crate::spec::NodeSpec;
use port_state::{Outbox, PortMachine, Signal, Timing, View};
use self_id::Attrs;

/// A machine that keeps the flags and levels of its ports in a few words. Every machine does, so it
/// is a `FieldMachine` under a name of its own.
#[derive(Debug, Drop)]
pub struct PackedMachine {
    machine: FieldMachine,
}

impl PackedMachine {
    ghost use Rattle.phy_machine.specs.Packed.{packed_node};

    /// The machine of a node at power-on. The specification has 1 to 16 ports, and attributes that
    /// fit their bits with a delay of 0.
    pub fn new(spec: NodeSpec) -> PackedMachine
        requires { IsSpec spec }
        ensures { packed_node result ≡ node_of_spec spec }
    {
        PackedMachine {
            machine: FieldMachine::new(spec),
        }
    }

    /// The clock is slow from now on: it misses one of every `gap` + 1 turns, at least 1, the first of
    /// them after `first` turns more.
    pub fn slow_down(&mut self, gap: u32, first: u32)
        requires { 1 ≤ gap }
        ensures { packed_node self.new ≡ record (packed_node self.old) { clock = every gap first } }
    {
        self.machine.slow_down(gap, first);
    }

    /// The node, just powered on, sets its gap count back to 63 at the second reset without a new
    /// configuration packet.
    pub fn reset_gaps(&mut self)
        ensures { packed_node self.new ≡ with_gap_reset (packed_node self.old) }
    {
        self.machine.reset_gaps();
    }
}

impl PortMachine for PackedMachine {
    ghost use Rattle.phy_machine.specs.Field.{field_regular};
    ghost use Rattle.phy_machine.specs.Packed.{packed_node};

    ghost record_of = { packed_node };

    fn on_signal_into(&mut self, port: u8, signal: Signal, out: &mut Outbox) {
        self.machine.on_signal_into(port, signal, out);
    }

    fn tick_into(&mut self, out: &mut Outbox) {
        self.machine.tick_into(out);
    }

    fn disturb_into(&mut self, out: &mut Outbox) {
        self.machine.disturb_into(out);
    }

    fn plugged_into(&mut self, port: u8, out: &mut Outbox) {
        self.machine.plugged_into(port, out);
    }

    fn pulled_into(&mut self, port: u8, out: &mut Outbox) {
        self.machine.pulled_into(port, out);
    }

    fn set_config(&mut self, root_id: u8, force: bool, gap: Option<u8>) {
        self.machine.set_config(root_id, force, gap);
    }

    fn view(&self) -> View {
        self.machine.view()
    }

    fn list(&self) -> &[u32] {
        self.machine.list()
    }

    fn attrs(&self) -> Attrs {
        self.machine.attrs()
    }

    fn timing(&self) -> Timing {
        self.machine.timing()
    }

    fn ports(&self) -> u8 {
        self.machine.ports()
    }

    fn idle_for(&self) -> u32 {
        self.machine.idle_for()
    }

    fn is_even(&self) -> bool {
        self.machine.is_even()
    }

    fn ticks_on(&self, past: u32) -> u32 {
        self.machine.ticks_on(past)
    }

    fn timer_after(&self, turns: u32) -> u16 {
        self.machine.timer_after(turns)
    }

    fn pass(&mut self, turns: u32) {
        self.machine.pass(turns);
    }

    ghost valid = { λ m. m.machine.valid };

    ghost regular = { λ m. field_regular m.machine };
}

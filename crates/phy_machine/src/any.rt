//! A machine of either kind.
ghost use Rattle.std.specs.Prelude.{◌≡◌, ◌≤◌};
ghost use Rattle.port_state.specs.Clock.{every};
ghost use Rattle.phy_machine.specs.PowerOn.{with_gap_reset};

use crate::field::FieldMachine;
use crate::packed::PackedMachine;
use port_state::{Outbox, PortMachine, Signal, Timing, View};
use self_id::Attrs;

/// A machine of either kind.
#[derive(Debug, Drop)]
pub enum AnyMachine {
    /// One that keeps its record in fields.
    Field(FieldMachine),
    /// One that keeps its ports in a few words.
    Packed(PackedMachine),
}

impl AnyMachine {
    ghost use Rattle.phy_machine.specs.Any.{any_node};

    /// The clock is slow from now on: it misses one of every `gap` + 1 turns, at least 1, the first of
    /// them after `first` turns more.
    pub fn slow_down(&mut self, gap: u32, first: u32)
        requires { 1 ≤ gap }
        ensures { any_node self.new ≡ record (any_node self.old) { clock = every gap first } }
    {
        match self {
            AnyMachine::Field(machine) => machine.slow_down(gap, first),
            AnyMachine::Packed(machine) => machine.slow_down(gap, first),
        }
    }

    /// The node, just powered on, sets its gap count back to 63 at the second reset without a new
    /// configuration packet.
    pub fn reset_gaps(&mut self)
        ensures { any_node self.new ≡ with_gap_reset (any_node self.old) }
    {
        match self {
            AnyMachine::Field(machine) => machine.reset_gaps(),
            AnyMachine::Packed(machine) => machine.reset_gaps(),
        }
    }
}

impl PortMachine for AnyMachine {
    ghost use Rattle.phy_machine.specs.Any.{any_node, any_regular, any_valid};

    ghost record_of = { any_node };

    fn on_signal_into(&mut self, port: u8, signal: Signal, out: &mut Outbox) {
        match self {
            AnyMachine::Field(machine) => machine.on_signal_into(port, signal, out),
            AnyMachine::Packed(machine) => machine.on_signal_into(port, signal, out),
        }
    }

    fn tick_into(&mut self, out: &mut Outbox) {
        match self {
            AnyMachine::Field(machine) => machine.tick_into(out),
            AnyMachine::Packed(machine) => machine.tick_into(out),
        }
    }

    fn disturb_into(&mut self, out: &mut Outbox) {
        match self {
            AnyMachine::Field(machine) => machine.disturb_into(out),
            AnyMachine::Packed(machine) => machine.disturb_into(out),
        }
    }

    fn plugged_into(&mut self, port: u8, out: &mut Outbox) {
        match self {
            AnyMachine::Field(machine) => machine.plugged_into(port, out),
            AnyMachine::Packed(machine) => machine.plugged_into(port, out),
        }
    }

    fn pulled_into(&mut self, port: u8, out: &mut Outbox) {
        match self {
            AnyMachine::Field(machine) => machine.pulled_into(port, out),
            AnyMachine::Packed(machine) => machine.pulled_into(port, out),
        }
    }

    fn set_config(&mut self, root_id: u8, force: bool, gap: Option<u8>) {
        match self {
            AnyMachine::Field(machine) => machine.set_config(root_id, force, gap),
            AnyMachine::Packed(machine) => machine.set_config(root_id, force, gap),
        }
    }

    fn view(&self) -> View {
        match self {
            AnyMachine::Field(machine) => machine.view(),
            AnyMachine::Packed(machine) => machine.view(),
        }
    }

    fn list(&self) -> &[u32] {
        match self {
            AnyMachine::Field(machine) => machine.list(),
            AnyMachine::Packed(machine) => machine.list(),
        }
    }

    fn attrs(&self) -> Attrs {
        match self {
            AnyMachine::Field(machine) => machine.attrs(),
            AnyMachine::Packed(machine) => machine.attrs(),
        }
    }

    fn timing(&self) -> Timing {
        match self {
            AnyMachine::Field(machine) => machine.timing(),
            AnyMachine::Packed(machine) => machine.timing(),
        }
    }

    fn ports(&self) -> u8 {
        match self {
            AnyMachine::Field(machine) => machine.ports(),
            AnyMachine::Packed(machine) => machine.ports(),
        }
    }

    fn idle_for(&self) -> u32 {
        match self {
            AnyMachine::Field(machine) => machine.idle_for(),
            AnyMachine::Packed(machine) => machine.idle_for(),
        }
    }

    fn is_even(&self) -> bool {
        match self {
            AnyMachine::Field(machine) => machine.is_even(),
            AnyMachine::Packed(machine) => machine.is_even(),
        }
    }

    fn ticks_on(&self, past: u32) -> u32 {
        match self {
            AnyMachine::Field(machine) => machine.ticks_on(past),
            AnyMachine::Packed(machine) => machine.ticks_on(past),
        }
    }

    fn timer_after(&self, turns: u32) -> u16 {
        match self {
            AnyMachine::Field(machine) => machine.timer_after(turns),
            AnyMachine::Packed(machine) => machine.timer_after(turns),
        }
    }

    fn pass(&mut self, turns: u32) {
        match self {
            AnyMachine::Field(machine) => machine.pass(turns),
            AnyMachine::Packed(machine) => machine.pass(turns),
        }
    }

    ghost valid = { any_valid };

    ghost regular = { any_regular };
}

//! What every machine of a node does.
ghost use Rattle.std.specs.Prelude.{◌≡◌, ◌+◌, ◌<◌, ◌≤◌, [], true, IsTrue, IsFalse};
ghost use Rattle.std.specs.Option.{ForSome};
ghost use Rattle.port_state.specs.Ports.{is_connected};
ghost use Rattle.port_state.specs.Group.{shown_attrs};
ghost use Rattle.port_state.specs.Valid.{IsValid};
ghost use Rattle.port_state.specs.Config.{config_packet};
ghost use Rattle.port_state.specs.Clock.{IsRegular, TicksFor, clock_on, is_even, misses};
ghost use Rattle.port_state.specs.Machine.{PortNode, node_on_signal, node_tick, node_disturb};
ghost use Rattle.port_state.specs.Machine.{node_plugged, node_pulled, node_set_config};
ghost use Rattle.port_state.specs.Idle.{IsIdleFor, after_ticks};

use crate::outbox::Outbox;
use crate::sends::Sends;
use crate::signal::Signal;
use crate::timing::Timing;
use crate::view::View;
use self_id::Attrs;

/// The machine of one node: bus reset, tree identify and self identify as its ports see them
/// (IEEE Std 1394-1995 and 1394a-2000, cable environment, states R0 to A0).
///
/// What a machine keeps stands for the record of a node with its coins and its clock, and each call
/// does that call's step of the step table to it. `out` is empty at each call, and then has what was
/// sent, the first signal first. Who implements the trait writes the calls with `_into`, which pass
/// on what is sent; the ones without give it as a list.
pub trait PortMachine {
    ghost record_of: { Self → PortNode };

    /// A port, numbered from 0, hears a signal.
    fn on_signal_into(&mut self, port: u8, signal: Signal, out: &mut Outbox)
        requires empty { out.old ≡ [] }
        requires exists { port < (record_of self.old).state.ports }
        ensures node { record_of self.new ≡ (node_on_signal port signal (record_of self.old)).node }
        ensures sends { out.new ≡ (node_on_signal port signal (record_of self.old)).sends };

    /// A turn of the clock passes: a tick, or a turn that the clock misses.
    fn tick_into(&mut self, out: &mut Outbox)
        requires empty { out.old ≡ [] }
        ensures node { record_of self.new ≡ (node_tick (record_of self.old)).node }
        ensures sends { out.new ≡ (node_tick (record_of self.old)).sends };

    /// The node resets the bus.
    fn disturb_into(&mut self, out: &mut Outbox)
        requires empty { out.old ≡ [] }
        ensures node { record_of self.new ≡ (node_disturb (record_of self.old)).node }
        ensures sends { out.new ≡ (node_disturb (record_of self.old)).sends };

    /// A cable is plugged into a port, numbered from 0, that has none.
    fn plugged_into(&mut self, port: u8, out: &mut Outbox)
        requires empty { out.old ≡ [] }
        requires exists { port < (record_of self.old).state.ports }
        requires free { IsFalse (is_connected (record_of self.old).state.view.ports port) }
        ensures node { record_of self.new ≡ (node_plugged port (record_of self.old)).node }
        ensures sends { out.new ≡ (node_plugged port (record_of self.old)).sends };

    /// The cable is pulled from a port, numbered from 0, that has one.
    fn pulled_into(&mut self, port: u8, out: &mut Outbox)
        requires empty { out.old ≡ [] }
        requires connected { IsTrue (is_connected (record_of self.old).state.view.ports port) }
        ensures node { record_of self.new ≡ (node_pulled port (record_of self.old)).node }
        ensures sends { out.new ≡ (node_pulled port (record_of self.old)).sends };

    /// A port, numbered from 0, hears a signal.
    fn on_signal(&mut self, port: u8, signal: Signal, out: &mut Sends)
        requires empty { out.old ≡ [] }
        requires exists { port < (record_of self.old).state.ports }
        ensures node { record_of self.new ≡ (node_on_signal port signal (record_of self.old)).node }
        ensures sends { out.new ≡ (node_on_signal port signal (record_of self.old)).sends }
    {
        let mut outbox = Outbox::new();
        self.on_signal_into(port, signal, &mut outbox);
        out.fill(&outbox);
    }

    /// A turn of the clock passes: a tick, or a turn that the clock misses.
    fn tick(&mut self, out: &mut Sends)
        requires empty { out.old ≡ [] }
        ensures node { record_of self.new ≡ (node_tick (record_of self.old)).node }
        ensures sends { out.new ≡ (node_tick (record_of self.old)).sends }
    {
        let mut outbox = Outbox::new();
        self.tick_into(&mut outbox);
        out.fill(&outbox);
    }

    /// The node resets the bus.
    fn disturb(&mut self, out: &mut Sends)
        requires empty { out.old ≡ [] }
        ensures node { record_of self.new ≡ (node_disturb (record_of self.old)).node }
        ensures sends { out.new ≡ (node_disturb (record_of self.old)).sends }
    {
        let mut outbox = Outbox::new();
        self.disturb_into(&mut outbox);
        out.fill(&outbox);
    }

    /// A cable is plugged into a port, numbered from 0, that has none.
    fn plugged(&mut self, port: u8, out: &mut Sends)
        requires empty { out.old ≡ [] }
        requires exists { port < (record_of self.old).state.ports }
        requires free { IsFalse (is_connected (record_of self.old).state.view.ports port) }
        ensures node { record_of self.new ≡ (node_plugged port (record_of self.old)).node }
        ensures sends { out.new ≡ (node_plugged port (record_of self.old)).sends }
    {
        let mut outbox = Outbox::new();
        self.plugged_into(port, &mut outbox);
        out.fill(&outbox);
    }

    /// The cable is pulled from a port, numbered from 0, that has one.
    fn pulled(&mut self, port: u8, out: &mut Sends)
        requires empty { out.old ≡ [] }
        requires connected { IsTrue (is_connected (record_of self.old).state.view.ports port) }
        ensures node { record_of self.new ≡ (node_pulled port (record_of self.old)).node }
        ensures sends { out.new ≡ (node_pulled port (record_of self.old)).sends }
    {
        let mut outbox = Outbox::new();
        self.pulled_into(port, &mut outbox);
        out.fill(&outbox);
    }

    /// The node hears a PHY configuration packet, which takes effect at the next reset. With
    /// `force` (R) it is then to be root if its ID is `root_id`, 0 to 63, and else not. With a gap
    /// count (T), 0 to 63, that is then its own.
    fn set_config(&mut self, root_id: u8, force: bool, gap: Option<u8>)
        requires root { root_id ≤ 63 }
        requires gap { ForSome gap (λ g. g ≤ 63) }
        ensures { record_of self.new
            ≡ node_set_config (config_packet root_id force gap) (record_of self.old) };

    /// What the node shows of its state.
    fn view(&self) -> View
        ensures { result ≡ (record_of self.now).state.view };

    /// The first quadlets of the self-ID packets that were heard or sent since the last reset.
    fn list(&self) -> &[u32]
        ensures { result.now ≡ (record_of self.now).state.list.items };

    /// The attributes that the node shows, with the gap count and the initiated bit of its view.
    fn attrs(&self) -> Attrs
        ensures value { result ≡ shown_attrs (record_of self.now).state }
        ensures no_delay { result.delay ≡ 0 };

    /// The times of the node.
    fn timing(&self) -> Timing
        ensures { result ≡ (record_of self.now).state.timing };

    /// The number of ports, 1 to 16.
    fn ports(&self) -> u8
        ensures { result ≡ (record_of self.now).state.ports };

    /// Whether the clock misses no turn.
    fn is_even(&self) -> bool
        ensures { result ≡ is_even (record_of self.now).clock };

    /// For how many turns behind the next `past` ones the clock misses none: the greatest number, up
    /// to 4,000,000.
    fn ticks_on(&self, past: u32) -> u32
        ensures most { result ≤ 4000000 }
        ensures ticks { TicksFor result (clock_on past (record_of self.now).clock) }
        ensures greatest { result < 4000000 →
            misses (clock_on (past + result) (record_of self.now).clock) ≡ true };

    /// How long nothing happens at the node: the greatest number of turns, up to 4,000,000, such
    /// that the next turns of this number send nothing and change the timer alone, if no signal is
    /// heard. In a turn that the clock misses nothing happens.
    fn idle_for(&self) -> u32
        ensures most { result ≤ 4000000 }
        ensures idle { IsIdleFor result (record_of self.now) }
        ensures greatest { result < 4000000 → ¬ IsIdleFor (result + 1) (record_of self.now) };

    /// What the timer shows after so many turns in which nothing happens: at most as many as
    /// `idle_for` answers.
    fn timer_after(&self, turns: u32) -> u16
        requires idle { IsIdleFor turns (record_of self.now) }
        ensures { result ≡ (after_ticks turns (record_of self.now)).state.view.timer };

    /// So many turns of the clock pass in which nothing happens: at most as many as `idle_for`
    /// answers.
    fn pass(&mut self, turns: u32)
        requires idle { IsIdleFor turns (record_of self.old) }
        ensures { record_of self.new ≡ after_ticks turns (record_of self.old) };

    // The record of a machine is valid, whatever calls came before.
    ghost valid: { (m : Self) → IsValid (record_of m).state };

    // The clock of a machine is regular: it misses no turn, or turns again and again.
    ghost regular: { (m : Self) → IsRegular (record_of m).clock };
}

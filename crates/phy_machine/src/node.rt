//! The calls of a machine over the record of its node.
ghost use Rattle.std.specs.Prelude.{◌≡◌, ◌<◌, ◌≤◌, [], IsTrue, length, replicate};
ghost use Rattle.port_state.specs.Ports.{is_connected};
ghost use Rattle.port_state.specs.PowerOn.{free_port, power_on, resetting_gap};
ghost use Rattle.port_state.specs.Entry.{disturb, plugged, pulled};
ghost use Rattle.port_state.specs.Config.{config_packet, set_config};
ghost use Rattle.port_state.specs.Heard.{on_signal};
ghost use Rattle.port_state.specs.Group.{shown_attrs};
ghost use Rattle.port_state.specs.Machine.{node_tick};
ghost use Rattle.port_state.specs.Idle.{with_later_timer};
ghost use Rattle.port_state.specs.Valid.{IsBounded, IsValid};
ghost use Rattle.phy_machine.specs.Node.{node_of};
ghost use Rattle.phy_machine.specs.codings.RowStep.{row_step};
ghost use Rattle.phy_machine.specs.codings.Levels.{level_of, signal_of};

use arrayvec::ArrayVec;
use bus_reset::{enter_into, reset_tick_into};
use contention::{begin_into, contend_tick_into, has_rival};
use port_state::states::NodeState;
use port_state::{Coins, Level, Outbox, Phase, PortView, PortViews, Signal, Timing, View};
use self_id::Attrs;
use self_identify::{ident_signal_into, ident_tick_into};
use tree_identify::tree_tick_into;

/// What the row of the phase does, once the timer was raised.
fn take_row(s: &mut NodeState, coins: &mut Coins, out: &mut Outbox)
    requires valid { IsValid s.old }
    requires empty { out.old ≡ [] }
    ensures node { node_of s.new coins.new ≡ (row_step s.old.view.phase s.old coins.old).node }
    ensures sends { out.new ≡ (row_step s.old.view.phase s.old coins.old).sends }
{
    match s.view.phase {
        Phase::ResetStart | Phase::ResetWait => reset_tick_into(s, out),
        Phase::TreeStart | Phase::ChildShake => tree_tick_into(s, out),
        Phase::ParentShake => {
            if has_rival(s) {
                begin_into(s, coins, out);
            } else {
                tree_tick_into(s, out);
            }
        }
        Phase::Contend => contend_tick_into(s, out),
        Phase::SelfIdent => ident_tick_into(s, out),
        Phase::Ready => {}
    }
}

/// A tick: the timer rises, and the row of the phase applies.
pub fn tick(s: &mut NodeState, coins: &mut Coins, out: &mut Outbox)
    requires valid { IsValid s.old }
    requires empty { out.old ≡ [] }
    ensures node { node_of s.new coins.new ≡ (node_tick (node_of s.old coins.old)).node }
    ensures sends { out.new ≡ (node_tick (node_of s.old coins.old)).sends }
    ensures valid { IsValid s.new }
{
    s.view.timer = s.view.timer.saturating_add(1);
    take_row(s, coins, out);
}

/// The level that a signal is; a grant, a packet and Done are none.
pub fn level_of(signal: Signal) -> Option<Level>
    ensures { result ≡ level_of signal }
{
    match signal {
        Signal::Reset => Some(Level::Reset),
        Signal::Idle => Some(Level::Idle),
        Signal::Parent => Some(Level::Parent),
        Signal::Child => Some(Level::Child),
        Signal::Grant | Signal::Packet(_) | Signal::Done => None,
    }
}

/// A port hears a level. Outside R0 a Reset begins a reset of this node too.
#[tactic(auto, unfolding(port_state::specs::Heard::on_signal))]
fn hear_level(s: &mut NodeState, port: u8, level: Level, out: &mut Outbox)
    requires bounded { IsBounded s.old }
    requires exists { port < s.old.ports }
    requires empty { out.old ≡ [] }
    ensures state { s.new ≡ (on_signal port (signal_of level) s.old).state }
    ensures sends { out.new ≡ (on_signal port (signal_of level) s.old).sends }
{
    if !s.view.ports.get(usize::from(port)).connected {
        return;
    }
    s.view.ports.show(port, level);
    if level == Level::Reset && s.view.phase != Phase::ResetStart {
        enter_into(s, false, out);
    }
}

/// A port hears a signal.
pub fn on_signal(s: &mut NodeState, port: u8, signal: Signal, out: &mut Outbox)
    requires valid { IsValid s.old }
    requires exists { port < s.old.ports }
    requires empty { out.old ≡ [] }
    ensures state { s.new ≡ (on_signal port signal s.old).state }
    ensures sends { out.new ≡ (on_signal port signal s.old).sends }
    ensures valid { IsValid s.new }
{
    match level_of(signal) {
        Some(level) => hear_level(s, port, level, out),
        None => ident_signal_into(s, port, signal, out),
    }
}

/// The node resets the bus.
pub fn disturb(s: &mut NodeState, out: &mut Outbox)
    requires bounded { IsBounded s.old }
    requires empty { out.old ≡ [] }
    ensures state { s.new ≡ (disturb s.old).state }
    ensures sends { out.new ≡ (disturb s.old).sends }
    ensures valid { IsValid s.new }
{
    enter_into(s, true, out);
}

/// A cable is plugged into a port, and the node resets the bus.
pub fn plugged(s: &mut NodeState, port: u8, out: &mut Outbox)
    requires bounded { IsBounded s.old }
    requires exists { port < s.old.ports }
    requires empty { out.old ≡ [] }
    ensures state { s.new ≡ (plugged port s.old).state }
    ensures sends { out.new ≡ (plugged port s.old).sends }
    ensures valid { IsValid s.new }
{
    let at = usize::from(port);
    let view = s.view.ports.get(at);
    s.view.ports.set(
        at,
        PortView {
            connected: true,
            shown: Level::Reset,
            ..view
        },
    );
    enter_into(s, true, out);
}

/// The cable is pulled from a port, and the node resets the bus.
pub fn pulled(s: &mut NodeState, port: u8, out: &mut Outbox)
    requires bounded { IsBounded s.old }
    requires exists { port < s.old.ports }
    requires empty { out.old ≡ [] }
    ensures state { s.new ≡ (pulled port s.old).state }
    ensures sends { out.new ≡ (pulled port s.old).sends }
    ensures valid { IsValid s.new }
{
    let at = usize::from(port);
    let view = s.view.ports.get(at);
    s.view.ports.set(
        at,
        PortView {
            connected: false,
            shown: Level::Idle,
            ..view
        },
    );
    enter_into(s, true, out);
}

/// The node hears a PHY configuration packet.
pub fn set_config(s: &mut NodeState, root_id: u8, force: bool, gap: Option<u8>)
    ensures { s.new ≡ set_config (config_packet root_id force gap) s.old }
{
    if force {
        s.view.next_force = s.view.id == Some(root_id);
    }
    if let Some(count) = gap {
        s.view.next_gap = count;
    }
}

/// What the timer shows so many ticks later, where they raise it alone.
pub fn later_timer(s: &NodeState, ticks: u32) -> u16
    ensures timer { result ≡ (with_later_timer ticks s.now).view.timer }
    ensures fits { s.now.view.timer ≤ 65535 }
{
    let timer = u32::from(s.view.timer).saturating_add(ticks);
    timer.min(65_535) as u16
}

/// So many ticks pass that raise the timer alone.
pub fn pass(s: &mut NodeState, ticks: u32)
    ensures state { s.new ≡ with_later_timer ticks s.old }
    ensures fits { s.old.view.timer ≤ 65535 }
{
    s.view.timer = later_timer(s, ticks);
}

/// The attributes that a node shows.
pub fn attrs(s: &NodeState) -> Attrs
    ensures { result ≡ shown_attrs s.now }
{
    Attrs {
        gap: s.view.gap,
        initiated: s.view.initiated,
        ..s.attrs
    }
}

/// So many ports with no cable.
fn free_ports(count: u8) -> PortViews
    requires { count ≤ 16 }
    ensures { result ≡ replicate count free_port }
{
    let mut ports = PortViews::new();
    for _port in 0..count {
        ports.push(PortView::default());
    }
    ports
}

/// The record of a node at power-on.
pub fn power_on(ports: u8, attrs: Attrs, force: bool, timing: Timing) -> NodeState
    requires { ports ≤ 16 }
    ensures { result ≡ power_on ports attrs force timing }
{
    NodeState {
        view: View {
            phase: Phase::ResetStart,
            timer: 0,
            wait: 0,
            ports: free_ports(ports),
            parent: None,
            granted: false,
            id: None,
            draws: 0,
            first_draws: 0,
            initiated: true,
            gap: attrs.gap,
            force,
            next_gap: attrs.gap,
            next_force: force,
            timed_out: false,
            resets: 1,
        },
        list: ArrayVec::new(),
        attrs,
        timing,
        ports,
        resets_gap: false,
    }
}

/// From here on the node sets its gap count back to 63 at a reset without a new configuration packet.
pub fn reset_gaps(s: &mut NodeState)
    requires valid { IsValid s.old }
    ensures state { s.new ≡ resetting_gap s.old }
    ensures valid { IsValid s.new }
{
    s.view.next_gap = 63;
    s.resets_gap = true;
}

//! How long nothing happens at a node.
ghost use Rattle.std.specs.Prelude.{◌≡◌, ◌+◌, ◌<◌, ◌≤◌};
ghost use Rattle.port_state.specs.SelfIdentify.{may_name};
ghost use Rattle.port_state.specs.Valid.{IsBounded, IsValid};
ghost use Rattle.phy_machine.specs.codings.IdleTime.{RestsFor, StirsAfter};
ghost use Rattle.phy_machine.specs.codings.IdleTime.{HasTimes, packet_count, ticks_before, idle_unless, until_timeout, until_roles, until_answer, until_waited, until_named, idle_in};

use port_state::states::NodeState;
use port_state::{Level, Phase};
use self_identify::node_count;

/// As long as a machine looks ahead, in ticks.
const LOOK_AHEAD: u32 = 4_000_000;

/// How many ticks there are before the one that raises the timer to a time.
fn ticks_before(time: u16, s: &NodeState) -> u32
    ensures { result ≡ ticks_before time s.now }
{
    u32::from(time).saturating_sub(u32::from(s.view.timer) + 1)
}

/// No tick, if something happens at the next one, and else as long as a machine looks ahead.
fn idle_unless(happens: bool) -> u32
    ensures { result ≡ idle_unless happens }
{
    if happens { 0 } else { LOOK_AHEAD }
}

/// In T0: until the node says that its configuration timed out.
fn until_timeout(s: &NodeState) -> u32
    ensures { result ≡ until_timeout s.now }
{
    if s.view.timed_out {
        LOOK_AHEAD
    } else {
        ticks_before(s.timing.timeout, s)
    }
}

/// In T0: until the roles of the ports are decided.
fn until_roles(s: &NodeState) -> u32
    ensures { result ≡ until_roles s.now }
{
    let asking = s.view.ports.asking_count();
    let connected = s.view.ports.connected_count();
    if asking == connected {
        0
    } else if asking + 1 == connected {
        if s.view.force {
            ticks_before(s.timing.force, s)
        } else {
            0
        }
    } else {
        LOOK_AHEAD
    }
}

/// In T2: until the parent answers; a node with no parent port goes on at once.
fn until_answer(s: &NodeState) -> u32
    requires { IsBounded s.now }
    ensures { result ≡ until_answer s.now.view.parent s.now }
{
    match s.view.parent {
        None => 0,
        Some(parent) => idle_unless(matches!(
            s.view.ports.get(usize::from(parent)).shown,
            Level::Child | Level::Parent
        )),
    }
}

/// In T3: until the wait is over.
fn until_waited(s: &NodeState) -> u32
    ensures { result ≡ until_waited s.now.view.parent s.now }
{
    match s.view.parent {
        None => LOOK_AHEAD,
        Some(_) => ticks_before(s.view.wait, s),
    }
}

/// How many packets a node with so many ports, 1 to 16, has.
fn packet_count(ports: u8) -> usize
    ensures { result ≡ packet_count ports }
{
    match ports {
        0..=3 => 1,
        4..=11 => 2,
        _ => 3,
    }
}

/// Whether there is an ID left for the node, and room in its list.
fn may_name(s: &NodeState) -> bool
    requires { IsBounded s.now }
    ensures { result ≡ may_name s.now }
{
    node_count(s.list.as_slice()) <= 62 && s.list.len() + packet_count(s.ports) <= 252
}

/// In S0 to S2: until the grant, and then until the child that was asked says Done.
fn until_named(s: &NodeState) -> u32
    requires { IsBounded s.now }
    ensures { result ≡ until_named s.now }
{
    if !s.view.granted {
        return LOOK_AHEAD;
    }
    match s.view.ports.next_child() {
        None => idle_unless(may_name(s)),
        Some(port) => idle_unless(!s.view.ports.get(usize::from(port)).asked),
    }
}

/// The times of a node are read, and so seen to fit 16 bits.
fn read_times(s: &NodeState)
    ensures { HasTimes s.now }
{
    let _timer = s.view.timer;
    let _wait = s.view.wait;
    let _hold = s.timing.hold;
    let _force = s.timing.force;
    let _timeout = s.timing.timeout;
}

/// How long nothing happens, by the phase.
fn idle_in(s: &NodeState) -> u32
    requires { IsBounded s.now }
    ensures { result ≡ idle_in s.now.view.phase s.now }
{
    match s.view.phase {
        Phase::ResetStart => ticks_before(s.timing.hold, s),
        Phase::ResetWait => idle_unless(s.view.ports.are_calm()),
        Phase::TreeStart => until_roles(s).min(until_timeout(s)),
        Phase::ChildShake => idle_unless(s.view.ports.are_children_idle()),
        Phase::ParentShake => until_answer(s),
        Phase::Contend => until_waited(s),
        Phase::SelfIdent => until_named(s),
        Phase::Ready => LOOK_AHEAD,
    }
}

/// How many of the next ticks, up to 4,000,000, send nothing and change the timer alone, if no
/// signal is heard. The timer is read, and so seen to fit 16 bits.
pub fn idle_for(s: &NodeState) -> u32
    requires { IsBounded s.now }
    ensures most { result ≤ 4000000 }
    ensures idle { RestsFor result s.now }
    ensures greatest { StirsAfter result s.now }
    ensures fits { s.now.view.timer ≤ 65535 }
{
    read_times(s);
    idle_in(s)
}

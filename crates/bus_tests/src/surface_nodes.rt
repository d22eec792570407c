//! The types and calls of nodes, worlds and reports that programs use, each named once, so that none
//! goes missing. Worlds are made in `nodes`, and plans carried out in `plans`.
ghost use Rattle.std.specs.Prelude.{◌≡◌, ◌<◌, [], ◌∷◌, length, true, false, None};
ghost use Rattle.std.specs.Option.{ForSome};
ghost use Rattle.phy_machine.specs.PowerOn.{IsSpec};
ghost use Rattle.port_state.specs.declared.ports.PortView.{PortView};
ghost use Rattle.port_state.specs.Valid.{FitsPhase, IsValid};

use crate::nodes::{ONES, USUAL, agenda, world};
use crate::quiet::can_settle;
use arrayvec::ArrayVec;
use cable_world::{Act, ActStop, World, WorldRun};
use cabling::{CableFault, Cabling, End, NodeSet, Walk};
use contention::{Coins, has_rival};
use phy_machine::{AnyMachine, FieldMachine, NodeSpec, PackedMachine};
use port_state::states::NodeState;
use port_state::{Level, Phase, PortMachine, PortView, PortViews, Sends, Signal, Timing, View};
use quad_lanes::QuadList;
use self_id::Attrs;
use settle::{Outcome, Part, PartList, Report};
use std::alloc::{AllocError, Global};
use std::test::Fail;
use world_agenda::AgendaWorld;

/// Signals of each kind, each at the place of its kind.
const SIGNALS: [Signal; 7] = [
    Signal::Reset,
    Signal::Idle,
    Signal::Parent,
    Signal::Child,
    Signal::Grant,
    Signal::Packet(0x807f_8854),
    Signal::Done,
];

/// The place of a signal's kind.
fn signal_kind(signal: Signal) -> usize {
    match signal {
        Signal::Reset => 0,
        Signal::Idle => 1,
        Signal::Parent => 2,
        Signal::Child => 3,
        Signal::Grant => 4,
        Signal::Packet(_) => 5,
        Signal::Done => 6,
    }
}

/// All levels and all phases, each at its place.
const LEVELS: [Level; 4] = [Level::Reset, Level::Idle, Level::Parent, Level::Child];

const PHASES: [Phase; 8] = [
    Phase::ResetStart,
    Phase::ResetWait,
    Phase::TreeStart,
    Phase::ChildShake,
    Phase::ParentShake,
    Phase::Contend,
    Phase::SelfIdent,
    Phase::Ready,
];

/// The place of a level.
fn level_place(level: Level) -> usize {
    match level {
        Level::Reset => 0,
        Level::Idle => 1,
        Level::Parent => 2,
        Level::Child => 3,
    }
}

/// The place of a phase.
fn phase_place(phase: Phase) -> usize {
    match phase {
        Phase::ResetStart => 0,
        Phase::ResetWait => 1,
        Phase::TreeStart => 2,
        Phase::ChildShake => 3,
        Phase::ParentShake => 4,
        Phase::Contend => 5,
        Phase::SelfIdent => 6,
        Phase::Ready => 7,
    }
}

#[test]
fn signals_levels_and_phases(rt: HostRuntime) {
    for (at, signal) in SIGNALS.iter().enumerate() {
        assert!(rt; signal_kind(*signal) == at);
    }
    for (at, level) in LEVELS.iter().enumerate() {
        assert!(rt; level_place(*level) == at);
    }
    for (at, phase) in PHASES.iter().enumerate() {
        assert!(rt; phase_place(*phase) == at);
    }
}

/// The times of a node whose cables delay by at most four turns.
const TIMES: Timing = Timing {
    hold: 256,
    force: 1024,
    timeout: 2048,
    short: 12,
    long: 32,
};

#[test]
fn times_and_sends(rt: HostRuntime) {
    assert!(rt; TIMES.in_range(4) && Timing::usual(4) == TIMES);
    let mut sends = Sends::new();
    sends.push(0, Signal::Idle);
    assert!(rt; sends.as_slice() == [(0, Signal::Idle)].as_slice());
    sends.clear();
    assert!(rt; sends.is_none());
    let mut coins: Coins = Coins::bits(1, 2);
    let mut seeded: Coins = Coins::seeded(7);
    let _coin: bool = seeded.next();
    assert!(rt; coins.next() && !coins.next());
}

/// What the nodes of these tests say of themselves.
const ATTRS: Attrs = Attrs {
    link: true,
    gap: 63,
    speed: 2,
    delay: 0,
    contender: true,
    power: 0,
    initiated: false,
};

/// A port that hears its neighbour ask it to be its parent.
const ASKED: PortView = PortView {
    connected: true,
    shown: Level::Parent,
    child: false,
    asked: false,
    named: false,
};

#[test]
fn views_of_ports(rt: HostRuntime) {
    let mut ports = PortViews::new();
    ports.push(ASKED);
    let views: &[PortView] = ports.as_slice();
    assert!(rt; views == [ASKED].as_slice());
}

/// The port to the parent of a node whose only port leads to no child, where it has one in this phase.
fn parent_in(phase: Phase) -> Option<u8>
    ensures fits { (port : PortView) → port.connected ≡ true → port.child ≡ false →
        FitsPhase phase result (port ∷ []) }
    ensures exists { ForSome result (λ port. port < 1) }
{
    match phase {
        Phase::ResetStart | Phase::ResetWait | Phase::TreeStart => None,
        _ => Some(0),
    }
}

/// What a node of one port shows in a phase.
fn view_in(phase: Phase) -> View
    ensures phase { result.phase ≡ phase }
    ensures ports { length result.ports ≡ 1 }
    ensures fits { FitsPhase phase result.parent result.ports }
    ensures parent { ForSome result.parent (λ port. port < 1) }
    ensures id { result.id ≡ None }
    ensures gap { result.gap ≡ 63 }
    ensures next_gap { result.next_gap ≡ 63 }
{
    let mut ports = PortViews::new();
    ports.push(ASKED);
    View {
        phase,
        timer: 0,
        wait: 12,
        ports,
        parent: parent_in(phase),
        granted: true,
        id: None,
        draws: 1,
        first_draws: 0,
        initiated: true,
        gap: 63,
        force: false,
        next_gap: 63,
        next_force: false,
        timed_out: false,
        resets: 1,
    }
}

/// A node of one port in a phase.
fn node_in(phase: Phase) -> NodeState
    ensures valid { IsValid result }
    ensures phase { result.view.phase ≡ phase }
    ensures ports { result.ports ≡ 1 }
{
    NodeState {
        view: view_in(phase),
        list: ArrayVec::new(),
        attrs: ATTRS,
        timing: TIMES,
        ports: 1,
        resets_gap: false,
    }
}

/// What a node sends as it begins a reset, and in a tick of it.
fn sent_at_reset() -> Sends {
    let mut out = Sends::new();
    bus_reset::enter(&mut node_in(Phase::Ready), true, &mut out);
    out
}

fn sent_in_reset() -> Sends {
    let mut out = Sends::new();
    bus_reset::reset_tick(&mut node_in(Phase::ResetStart), &mut out);
    out
}

/// What a node sends that takes its neighbour as a child.
fn sent_to_child() -> Sends {
    let mut out = Sends::new();
    let mut node = node_in(Phase::TreeStart);
    if !has_rival(&node) {
        tree_identify::tree_tick(&mut node, &mut out);
    }
    out
}

/// What a node sends as it begins to contend, and in a tick of it.
fn sent_to_rival() -> Sends {
    let mut out = Sends::new();
    let mut node = node_in(Phase::ParentShake);
    if has_rival(&node) {
        contention::begin(&mut node, &mut Coins::bits(1, 1), &mut out);
    }
    out
}

fn sent_in_contention() -> Sends {
    let mut out = Sends::new();
    contention::contend_tick(&mut node_in(Phase::Contend), &mut out);
    out
}

/// What a node sends as it is granted its turn, and in its turn.
fn sent_at_grant() -> Sends {
    let mut out = Sends::new();
    self_identify::ident_signal(&mut node_in(Phase::SelfIdent), 0, Signal::Grant, &mut out);
    out
}

fn sent_to_identify() -> Sends {
    let mut out = Sends::new();
    self_identify::ident_tick(&mut node_in(Phase::SelfIdent), &mut out);
    out
}

#[test]
fn steps_of_phases(rt: HostRuntime) {
    assert!(rt; sent_at_reset().as_slice() == [(0, Signal::Reset)].as_slice());
    assert!(rt; sent_in_reset().is_none());
    assert!(rt; sent_to_child().as_slice() == [(0, Signal::Child)].as_slice());
    assert!(rt; sent_to_rival().as_slice() == [(0, Signal::Idle)].as_slice());
    assert!(rt; sent_in_contention().is_none());
    assert!(rt; sent_at_grant().is_none());
    let packet = (0, Signal::Packet(0x807f_8882));
    assert!(rt; sent_to_identify().as_slice() == [packet, (0, Signal::Done)].as_slice());
}

/// A node of three ports.
fn spec() -> NodeSpec
    ensures { IsSpec result }
{
    NodeSpec {
        ports: 3,
        attrs: ATTRS,
        timing: TIMES,
        force: false,
        coins: Coins::bits(1, 1),
    }
}

/// Whether a machine shows that it was just powered on.
fn is_powered_on<M: PortMachine>(machine: &M) -> bool {
    let view: View = machine.view();
    let attrs: Attrs = machine.attrs();
    view.phase == Phase::ResetStart
        && attrs.gap == 63
        && machine.list().is_empty()
        && machine.timing() == TIMES
        && machine.ports() == 3
}

/// Whether a machine resets the bus at a cable that is plugged into its first port.
fn resets_when_plugged<M: PortMachine>(machine: &mut M) -> bool {
    let view = machine.view();
    if view.ports.is_empty() || machine.ports() == 0 || view.ports.get(0).connected {
        return false;
    }
    let mut out = Sends::new();
    machine.plugged(0, &mut out);
    out.as_slice() == [(0, Signal::Reset)].as_slice()
}

/// Whether a machine sends nothing where its only cable is pulled.
fn is_silent_when_pulled<M: PortMachine>(machine: &mut M) -> bool {
    let view = machine.view();
    if view.ports.is_empty() || !view.ports.get(0).connected {
        return false;
    }
    let mut out = Sends::new();
    machine.pulled(0, &mut out);
    out.is_none()
}

/// Whether a machine in a reset sends nothing at a signal.
fn only_hears<M: PortMachine>(machine: &mut M) -> bool {
    if machine.ports() == 0 {
        return false;
    }
    let mut out = Sends::new();
    machine.on_signal(0, Signal::Idle, &mut out);
    out.is_none()
}

/// Whether a machine resets the bus when it is asked to, and then stays as it is for some ticks.
fn resets_when_disturbed<M: PortMachine>(machine: &mut M) -> bool {
    machine.set_config(0, true, Some(5));
    let mut out = Sends::new();
    machine.disturb(&mut out);
    let mut later = Sends::new();
    machine.tick(&mut later);
    let idle = machine.idle_for();
    machine.pass(idle);
    out.as_slice() == [(0, Signal::Reset)].as_slice() && later.is_none() && idle > 0
}

/// Whether each call of a machine that was just powered on gives what it should.
fn takes_each_call<M: PortMachine>(machine: &mut M) -> bool {
    is_powered_on(&*machine)
        && resets_when_plugged(machine)
        && only_hears(machine)
        && resets_when_disturbed(machine)
        && is_silent_when_pulled(machine)
}

/// Whether a machine keeps its ports in a few words.
fn is_packed(machine: &AnyMachine) -> bool {
    match machine {
        AnyMachine::Field(_) => false,
        AnyMachine::Packed(_) => true,
    }
}

#[test]
fn machines(rt: HostRuntime) {
    assert!(rt; takes_each_call(&mut FieldMachine::new(spec())));
    assert!(rt; takes_each_call(&mut PackedMachine::new(spec())));
    let mut field = AnyMachine::Field(FieldMachine::new(spec()));
    assert!(rt; !is_packed(&field) && takes_each_call(&mut field));
    let mut packed = AnyMachine::Packed(PackedMachine::new(spec()));
    assert!(rt; is_packed(&packed) && takes_each_call(&mut packed));
}

/// The first ports of two nodes.
const FIRST: End = End { node: 0, port: 0 };

const SECOND: End = End { node: 1, port: 0 };

/// A cable between two nodes.
const JOIN: Act = Act::Plug {
    a: FIRST,
    b: SECOND,
};

/// Acts of each kind, each at the place of its kind.
const ACTS: [Act; 4] = [
    JOIN,
    Act::Pull { end: FIRST },
    Act::Reset { node: 0 },
    Act::Config {
        from: 0,
        root_id: 1,
        force: true,
        gap: Some(5),
    },
];

/// The place of an act's kind.
fn act_kind(act: &Act) -> usize {
    match act {
        Act::Plug { .. } => 0,
        Act::Pull { .. } => 1,
        Act::Reset { .. } => 2,
        Act::Config { .. } => 3,
    }
}

/// The fault for which an act was refused.
fn fault_of(stop: &ActStop) -> Option<CableFault> {
    match stop {
        ActStop::Fault(fault) => Some(*fault),
        ActStop::Memory(_) => None,
    }
}

#[test]
fn acts(rt: HostRuntime) {
    for (at, act) in ACTS.iter().enumerate() {
        assert!(rt; act_kind(act) == at);
    }
    let fault = CableFault::SameNode { node: 0 };
    assert!(rt; fault_of(&ActStop::Fault(fault)) == Some(fault));
    assert!(rt; fault_of(&ActStop::Memory(AllocError)).is_none());
}

/// Whether a world shows two nodes that were just powered on.
fn shows_two<W: WorldRun>(world: &W) -> bool
    requires { length (W.world world.now).nodes ≡ 2 }
{
    let view: View = world.view(0);
    let attrs: Attrs = world.attrs(0);
    view.phase == Phase::ResetStart
        && attrs.gap == 63
        && world.list(1).is_empty()
        && world.changed(1) == 0
}

/// Whether a world of two nodes has no cable yet, and no turn was done.
fn is_new<W: WorldRun>(world: &W) -> bool {
    let cabling: &Cabling = world.cabling();
    cabling.nodes() == 2 && world.delay() == 4 && world.turns() == 0 && !world.spent()
}

/// One turn, and a thousand more.
fn pass<W: WorldRun>(world: &mut W) -> Result<(), cable_world::OutOfMemory> {
    if world.turns() < 1000 {
        world.turn()?;
    }
    if world.turns() < 1000 {
        world.run_turns(1000)?;
    }
    Ok(())
}

/// Joins two nodes, of which a wire is held for a while.
fn join<W: WorldRun>(world: &mut W) -> Result<(), ActStop> {
    world.act(&JOIN)?;
    world.hold(FIRST, 3)
}

#[test]
fn worlds(rt: HostRuntime) -> Result<(), Fail> {
    let mut plain: World<AnyMachine> = world(&rt, rt.alloc(), &[USUAL, ONES], 4, false)?;
    assert!(rt; shows_two(&plain) && is_new(&plain));
    join(&mut plain)?;
    pass(&mut plain)?;
    assert!(rt; plain.turns() == 1001);
    Ok(())
}

#[test]
fn worlds_that_pass_over_turns(rt: HostRuntime) -> Result<(), Fail> {
    let mut passing: AgendaWorld<AnyMachine> = agenda(&rt, rt.alloc(), &[USUAL, ONES], 4, true)?;
    assert!(rt; shows_two(&passing) && is_new(&passing));
    join(&mut passing)?;
    pass(&mut passing)?;
    assert!(rt; passing.turns() == 1001);
    Ok(())
}

/// The root of a tree; none where there is no tree.
fn root_of(outcome: &Outcome) -> Option<u8> {
    match outcome {
        Outcome::Tree { root, .. } => Some(*root),
        Outcome::Contention { .. } => None,
        Outcome::Loop { .. } => None,
    }
}

#[test]
fn outcomes(rt: HostRuntime) {
    let tree = Outcome::Tree {
        root: 1,
        list: QuadList::new(rt.alloc()),
        order: Walk::new(),
    };
    assert!(rt; root_of(&tree) == Some(1));
    assert!(rt; root_of(&Outcome::Contention { a: 0, b: 1 }).is_none());
    let nodes = NodeSet::none();
    assert!(rt; root_of(&Outcome::Loop { nodes }).is_none());
}

/// A report of one part, of which no node is.
fn own_report(alloc: Global) -> Result<Report, settle::OutOfMemory> {
    let mut parts = PartList::new(alloc);
    parts.push(Part {
        nodes: NodeSet::none(),
        rounds: 0,
        changed: 0,
        outcome: Outcome::Contention { a: 0, b: 1 },
    })?;
    Ok(Report { turn: 0, parts })
}

/// Whether a report has one part, of so many nodes, with this root.
fn has_one_part(report: &Report, nodes: u8, root: Option<u8>) -> bool {
    match report.parts.as_slice() {
        [part] => part.nodes.len() == nodes && root_of(&part.outcome) == root,
        _ => false,
    }
}

#[test]
fn reports(rt: HostRuntime) -> Result<(), Fail> {
    assert!(rt; settle::quiet_turns(2, 4) == 8128);
    assert!(rt; has_one_part(&own_report(rt.alloc())?, 0, None));
    let mut world = world(&rt, rt.alloc(), &[USUAL, ONES], 4, false)?;
    join(&mut world)?;
    assert!(rt; can_settle(&world));
    let report: Report = settle::settle(rt.alloc(), &mut world)?;
    assert!(rt; report.turn == 8128 && has_one_part(&report, 2, Some(1)));
    Ok(())
}

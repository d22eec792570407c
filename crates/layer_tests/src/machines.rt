//! Two nodes become a tree, and contend; and gap counts that are set back.
ghost use Rattle.phy_machine.specs.PowerOn.{IsSpec};

use crate::nodes::PLAIN;
use phy_machine::*;
use port_state::{Coins, Phase, PortMachine, Sends, Signal, Timing};

// A node of three ports that draws zeros.
fn spec() -> NodeSpec
    ensures { IsSpec result }
{
    NodeSpec {
        ports: 3,
        attrs: PLAIN,
        timing: Timing::usual(1),
        force: false,
        coins: Coins::bits(0, 1),
    }
}

// A cable is plugged into port 0; what is sent there.
fn plug<M: PortMachine>(machine: &mut M) -> Option<Signal> {
    let view = machine.view();
    if view.ports.is_empty() || machine.ports() == 0 || view.ports.get(0).connected {
        return None;
    }
    let mut out = Sends::new();
    machine.plugged(0, &mut out);
    nth(&out, 0)
}

// Port 0 hears a signal.
fn hear<M: PortMachine>(machine: &mut M, signal: Signal) {
    if machine.ports() > 0 {
        machine.on_signal(0, signal, &mut Sends::new());
    }
}

// So many ticks pass, 1 or more; what the last one sent.
fn tick<M: PortMachine>(machine: &mut M, ticks: u16) -> Sends {
    for _tick in 1..ticks {
        let mut out = Sends::new();
        machine.tick(&mut out);
    }
    let mut out = Sends::new();
    machine.tick(&mut out);
    out
}

// What port 0 hears, if anything, how many ticks pass then, and what the last of them sends there.
type Step = (Option<Signal>, u16, [Option<Signal>; 2]);

// The signal that was sent in this place, if it goes out on port 0.
fn nth(out: &Sends, at: usize) -> Option<Signal> {
    match out.as_slice().get(at) {
        Some((0, signal)) => Some(*signal),
        _ => None,
    }
}

// Whether a machine sends in a step what the step says.
fn takes<M: PortMachine>(machine: &mut M, step: Step) -> bool {
    let (heard, ticks, sent) = step;
    if let Some(signal) = heard {
        hear(machine, signal);
    }
    let out = tick(machine, ticks);
    nth(&out, 0) == sent[0] && nth(&out, 1) == sent[1]
}

// Whether a machine that is plugged at port 0, and passes over all of its reset but the last tick, takes
// these steps.
fn plays<M: PortMachine>(machine: &mut M, steps: &[Step]) -> bool {
    if plug(machine) != Some(Signal::Reset) || machine.idle_for() != 63 {
        return false;
    }
    machine.pass(63);
    for step in steps {
        if !takes(machine, *step) {
            return false;
        }
    }
    true
}

// The upper of two nodes: its neighbour asks it to be its parent, and names itself first.
const TO_ROOT: [Step; 8] = [
    (None, 1, [Some(Signal::Idle), None]),
    (Some(Signal::Idle), 1, [None, None]),
    (Some(Signal::Parent), 1, [Some(Signal::Child), None]),
    (Some(Signal::Idle), 1, [None, None]),
    (None, 1, [None, None]),
    (None, 1, [Some(Signal::Grant), None]),
    (Some(Signal::Packet(0x807f_8096)), 1, [None, None]),
    (
        Some(Signal::Done),
        1,
        [Some(Signal::Packet(0x817f_80d6)), None],
    ),
];

fn becomes_root<M: PortMachine + Drop>(mut machine: M) -> bool {
    let steps = TO_ROOT;
    if !plays(&mut machine, &steps) {
        return false;
    }
    let view = machine.view();
    view.phase == Phase::Ready
        && view.id == Some(1)
        && machine.list() == [0x807f_8096, 0x817f_80d6].as_slice()
        && machine.idle_for() == 4_000_000
}

// The lower of two nodes that asked each other: it draws 0, waits 3 ticks and asks again.
const TO_CHILD: [Step; 8] = [
    (None, 1, [Some(Signal::Idle), None]),
    (Some(Signal::Idle), 1, [None, None]),
    (None, 1, [Some(Signal::Parent), None]),
    (None, 1, [None, None]),
    (Some(Signal::Parent), 1, [Some(Signal::Idle), None]),
    (Some(Signal::Idle), 3, [Some(Signal::Parent), None]),
    (Some(Signal::Child), 1, [Some(Signal::Idle), None]),
    (
        Some(Signal::Grant),
        1,
        [Some(Signal::Packet(0x807f_8096)), Some(Signal::Done)],
    ),
];

fn contends<M: PortMachine + Drop>(mut machine: M) -> bool {
    let steps = TO_CHILD;
    if !plays(&mut machine, &steps) {
        return false;
    }
    let view = machine.view();
    view.id == Some(0) && view.draws == 1 && machine.list() == [0x807f_8096].as_slice()
}

#[test]
fn two_nodes(rt: HostRuntime) {
    assert!(rt; becomes_root(FieldMachine::new(spec())));
    assert!(rt; becomes_root(PackedMachine::new(spec())));
    assert!(rt; becomes_root(AnyMachine::Field(FieldMachine::new(spec()))));
    assert!(rt; contends(FieldMachine::new(spec())));
    assert!(rt; contends(PackedMachine::new(spec())));
    assert!(rt; contends(AnyMachine::Packed(PackedMachine::new(spec()))));
}

// The gap counts that a machine shows: just powered on, after a reset behind a packet that gives one,
// and after another reset.
fn gaps<M: PortMachine>(machine: &mut M) -> [u8; 3] {
    let own = machine.attrs().gap;
    machine.set_config(0, false, Some(5));
    machine.disturb(&mut Sends::new());
    let given = machine.attrs().gap;
    machine.disturb(&mut Sends::new());
    [own, given, machine.attrs().gap]
}

#[test]
fn gap_counts(rt: HostRuntime) {
    let mut keeps = FieldMachine::new(spec());
    assert!(rt; gaps(&mut keeps) == [63, 5, 5]);
    let mut field = FieldMachine::new(spec());
    field.reset_gaps();
    assert!(rt; gaps(&mut field) == [63, 5, 63]);
    let mut packed = PackedMachine::new(spec());
    packed.reset_gaps();
    assert!(rt; gaps(&mut packed) == [63, 5, 63]);
    let mut any = AnyMachine::Packed(PackedMachine::new(spec()));
    any.reset_gaps();
    assert!(rt; gaps(&mut any) == [63, 5, 63]);
}

//! What happens on the bus of a script, line by line.
ghost use Rattle.std.specs.Prelude.{◌≡◌, IsFalse, OnOk, length};
ghost use Rattle.cable_world.specs.Act.{IsAct};

use crate::nodes::{ONES, USUAL, agenda, world};
use crate::quiet::can_settle;
use cable_world::{Act, ShowsWires, WorldRun};
use cabling::{End, NodeSet};
use script_lines::{Command, Name};
use script_run::{Kind, ScriptFault, ScriptStop, trace_script};
use script_trace::{Legend, Listener, Trace, hear_turns, put_command, seen_before_act};
use settle::{Report, settle};
use std::alloc::{AllocError, Global};
use std::process::Abort;
use std::test::Fail;
use world_agenda::TellsStillTurns;

/// One node, which is alone.
const ALONE: [&str; 7] = [
    "turn 256 a enters R1",
    "turn 257 a enters T0",
    "turn 258 a enters T1",
    "turn 259 a enters T2",
    "turn 260 a enters S0",
    "turn 261 a enters A0",
    "turn 261 a phy_ID 0",
];

/// It resets the bus once it has settled, by a configuration packet, and at once again.
const ANEW: [&str; 18] = [
    "turn 256 a enters R1",
    "turn 257 a enters T0",
    "turn 258 a enters T1",
    "turn 259 a enters T2",
    "turn 260 a enters S0",
    "turn 261 a enters A0",
    "turn 261 a phy_ID 0",
    "turn 8048 config a - 5",
    "turn 8048 a enters R0",
    "turn 8048 reset a",
    "turn 8048 a enters R0",
    "turn 8304 a enters R1",
    "turn 8305 a enters T0",
    "turn 8306 a enters T1",
    "turn 8307 a enters T2",
    "turn 8308 a enters S0",
    "turn 8309 a enters A0",
    "turn 8309 a phy_ID 0",
];

/// Two nodes are plugged together. Both ask the other to be parent, and the coins decide.
const TWO: [&str; 42] = [
    "turn 0 plug a 0 b 0",
    "turn 0 a enters R0",
    "turn 0 a port 0 sends BUS_RESET",
    "turn 0 b enters R0",
    "turn 0 b port 0 sends BUS_RESET",
    "turn 256 a enters R1",
    "turn 256 a port 0 sends IDLE",
    "turn 256 b enters R1",
    "turn 256 b port 0 sends IDLE",
    "turn 257 a enters T0",
    "turn 257 b enters T0",
    "turn 258 a enters T1",
    "turn 258 a port 0 to its parent",
    "turn 258 a port 0 sends TX_PARENT_NOTIFY",
    "turn 258 b enters T1",
    "turn 258 b port 0 to its parent",
    "turn 258 b port 0 sends TX_PARENT_NOTIFY",
    "turn 259 a enters T2",
    "turn 259 b enters T2",
    "turn 260 a enters T3",
    "turn 260 a coin 0 wait 12",
    "turn 260 a port 0 sends IDLE",
    "turn 260 b enters T3",
    "turn 260 b coin 1 wait 32",
    "turn 260 b port 0 sends IDLE",
    "turn 272 a enters T2",
    "turn 272 a port 0 sends TX_PARENT_NOTIFY",
    "turn 292 b enters T1",
    "turn 292 b port 0 to a child",
    "turn 292 b port 0 sends TX_CHILD_NOTIFY",
    "turn 293 a enters S0",
    "turn 293 a port 0 sends IDLE",
    "turn 294 b enters T2",
    "turn 295 b enters S0",
    "turn 296 b port 0 sends TX_GRANT",
    "turn 297 a enters A0",
    "turn 297 a phy_ID 0",
    "turn 297 a port 0 sends packet 807f8096",
    "turn 297 a port 0 sends TX_IDENT_DONE",
    "turn 298 b enters A0",
    "turn 298 b phy_ID 1",
    "turn 298 b port 0 sends packet 817f80d6",
];

/// Lines, one behind the other.
fn text_of(alloc: Global, lines: &[&str]) -> Result<Vec<u8>, AllocError> {
    let mut text = Vec::new(alloc);
    for line in lines {
        text.extend_from_slice(line.as_bytes())?;
        text.push(b'\n')?;
    }
    Ok(text)
}

/// Names, scripts and the lines of their traces.
const SCRIPTS: &[(&str, &[u8], &[&str])] = &[
    ("one node", b"node a 1", &ALONE),
    (
        "resets",
        b"node a 1\nsettle\nconfig a - 5\nreset a\n",
        &ANEW,
    ),
    (
        "two nodes",
        b"node a 3 coins 0\nnode b 3 coins 1\nplug a 0 b 0\n",
        &TWO,
    ),
    ("no line", b"", &[]),
];

/// Whether these are the lines of a script's trace.
fn trace_is(alloc: Global, script: &[u8], lines: &[&str]) -> Result<bool, AllocError> {
    if script.len() > 1_048_576 {
        return Ok(false);
    }
    match trace_script(alloc, script) {
        Ok(found) => Ok(found == text_of(alloc, lines)?),
        Err(_) => Ok(false),
    }
}

/// Whether a script is refused since its second line names a node that there isn't.
fn has_no_node(alloc: Global, script: &[u8]) -> bool {
    if script.len() > 1_048_576 {
        return false;
    }
    matches!(
        trace_script(alloc, script),
        Err(ScriptStop::Fault(ScriptFault {
            line: 2,
            kind: Kind::NoNode,
        }))
    )
}

#[test]
fn scripts(rt: HostRuntime) -> Result<(), Fail> {
    for (name, script, lines) in SCRIPTS {
        assert!(rt; trace_is(rt.alloc(), *script, *lines)?, "{name}");
    }
    assert!(rt; has_no_node(rt.alloc(), b"node a 1\nplug a 0 b 0\n"));
    Ok(())
}

/// The names `a` and `b`.
fn two_names(alloc: Global) -> Result<Vec<Name>, AllocError> {
    let mut names = Vec::new(alloc);
    for text in [b"a", b"b"] {
        if let Some(name) = Name::new(text.as_slice()) {
            names.push(name)?;
        }
    }
    Ok(names)
}

/// An act of a world of two nodes is done and traced, and then 300 turns are.
fn traced<W: TellsStillTurns>(
    rt: &impl Abort,
    alloc: Global,
    world: &mut W,
    command: &Command,
    act: &Act,
) -> Result<Vec<u8>, Fail>
    requires act { IsAct act.now }
    requires nodes { length (W.world world.old).nodes ≡ 2 }
    ensures fine { OnOk result (IsFalse (W.is_spent world.new)) }
{
    let names = two_names(alloc)?;
    assert!(rt; names.len() == 2 && world.turns() <= 1_000_000);
    let legend = Legend {
        names: names.as_slice(),
        nanoseconds: None,
    };
    let touched = NodeSet::first(2);
    let mut trace = Trace::new(alloc);
    let seen = seen_before_act(alloc, &*world, 2, touched)?;
    trace.command(world.turns(), command)?;
    world.act(act)?;
    trace.since(&legend, touched, &seen, &*world)?;
    hear_turns(alloc, world, 300, &legend, &mut trace)?;
    Ok(trace.into_text())
}

/// The command that plugs two nodes together.
fn plug(alloc: Global) -> Result<Command, Fail> {
    let names = two_names(alloc)?;
    if names.len() != 2 {
        return Err("two names")?;
    }
    Ok(Command::Plug {
        a: names[0].clone()?,
        a_port: 0,
        b: names[1].clone()?,
        b_port: 0,
    })
}

/// Whether a report has one part, that contended once and last changed in turn 299.
fn is_reported(report: &Report) -> bool {
    let parts = report.parts.as_slice();
    report.turn == 8428 && parts.len() == 1 && parts[0].rounds == 1 && parts[0].changed == 299
}

/// Whether a world settles so.
fn settles<W: WorldRun>(alloc: Global, world: &mut W) -> Result<bool, Fail> {
    if !can_settle(&*world) {
        return Ok(false);
    }
    Ok(is_reported(&settle(alloc, world)?))
}

/// Two nodes are plugged together, traced, and settle.
fn plugged<W: TellsStillTurns>(rt: &impl Abort, alloc: Global, world: &mut W) -> Result<(), Fail>
    requires { length (W.world world.old).nodes ≡ 2 }
{
    let act = Act::Plug {
        a: End { node: 0, port: 0 },
        b: End { node: 1, port: 0 },
    };
    let text = traced(rt, alloc, world, &plug(alloc)?, &act)?;
    assert!(rt; text == text_of(alloc, &TWO)?);
    assert!(rt; settles(alloc, world)?);
    Ok(())
}

#[test]
fn two_nodes_are_traced(rt: HostRuntime) -> Result<(), Fail> {
    let alloc = rt.alloc();
    plugged(
        &rt,
        alloc,
        &mut world(&rt, alloc, &[USUAL, ONES], 4, false)?,
    )?;
    plugged(
        &rt,
        alloc,
        &mut agenda(&rt, alloc, &[USUAL, ONES], 4, true)?,
    )
}

/// Commands of a node.
fn put_commands(text: &mut Vec<u8>, name: Name) -> Result<(), Fail> {
    let hold = Command::Hold {
        name: name.clone()?,
        port: 12,
        turns: 300,
    };
    put_command(text, 40, &hold)?;
    put_command(text, 4_000_000_000, &Command::Pull { name, port: 0 })?;
    Ok(())
}

/// The lines of commands of two nodes, and of one of none.
const LINES: [&str; 5] = [
    "turn 40 hold a 12 300",
    "turn 4000000000 pull a 0",
    "turn 40 hold b 12 300",
    "turn 4000000000 pull b 0",
    "turn 7",
];

#[test]
fn the_lines_of_commands(rt: HostRuntime) -> Result<(), Fail> {
    let mut text = Vec::new(rt.alloc());
    for name in two_names(rt.alloc())? {
        put_commands(&mut text, name)?;
    }
    put_command(&mut text, 7, &Command::Settle)?;
    assert!(rt; text == text_of(rt.alloc(), &LINES)?);
    Ok(())
}

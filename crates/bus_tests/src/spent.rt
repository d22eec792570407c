//! Worlds for which no memory is found. With ample memory these tests see none; `rt try --test --fail-alloc`
//! refuses one growth after the other.
ghost use Rattle.std.specs.Prelude.{◌≡◌, ◌<◌, OnOk, length};

use crate::nodes::{ONES, USUAL, agenda, world};
use crate::quiet::can_settle;
use cable_world::{Act, ActStop, WorldRun};
use cabling::End;
use settle::settle;
use std::alloc::Global;
use std::process::Abort;
use std::test::Fail;

/// A node's first port.
const fn end(node: u8) -> End {
    End { node, port: 0 }
}

/// Plugs a cable between the two nodes of a world, and lets turns pass in which they configure.
fn configure<W: WorldRun>(rt: &impl Abort, world: &mut W) -> Result<(), ActStop> {
    world.act(&Act::Plug {
        a: end(0),
        b: end(1),
    })?;
    world.hold(end(0), 2)?;
    assert!(rt; world.turns() <= 1000);
    world.turn().map_err(ActStop::Memory)?;
    assert!(rt; world.turns() <= 1000);
    world.run_turns(400).map_err(ActStop::Memory)?;
    Ok(())
}

/// Whether an act, a hold and turns want memory, and nothing goes on.
fn goes_nowhere<W: WorldRun>(world: &mut W) -> bool {
    let turns = world.turns();
    matches!(world.act(&Act::Reset { node: 0 }), Err(ActStop::Memory(_)))
        && matches!(world.hold(end(0), 1), Err(ActStop::Memory(_)))
        && world.turns() <= 1000
        && world.turn().is_err()
        && world.turns() <= 1000
        && world.run_turns(1).is_err()
        && world.turns() == turns
}

/// Whether it doesn't settle either.
fn stays_unsettled<W: WorldRun>(alloc: Global, world: &mut W) -> bool {
    let turns = world.turns();
    can_settle(&*world) && settle(alloc, world).is_err() && world.turns() == turns
}

/// A world is spent exactly where a call found no memory.
fn try_world<W: WorldRun>(rt: &impl Abort, alloc: Global, world: &mut W) -> Result<(), Fail> {
    assert!(rt; !world.spent());
    match configure(rt, world) {
        Ok(()) => assert!(rt; !world.spent()),
        Err(ActStop::Memory(_)) => {
            assert!(rt; world.spent());
            assert!(rt; goes_nowhere(world) && stays_unsettled(alloc, world));
            assert!(rt; world.spent());
        }
        Err(stop) => return Err(stop.into()),
    }
    Ok(())
}

/// Two nodes, in either world.
fn try_both(rt: &impl Abort, alloc: Global, packed: bool) -> Result<(), Fail> {
    try_world(rt, alloc, &mut world(rt, alloc, &[USUAL, ONES], 4, packed)?)?;
    try_world(
        rt,
        alloc,
        &mut agenda(rt, alloc, &[USUAL, ONES], 4, packed)?,
    )
}

#[test]
fn worlds_without_memory(rt: HostRuntime) -> Result<(), Fail> {
    for packed in [false, true] {
        try_both(&rt, rt.alloc(), packed)?;
    }
    Ok(())
}

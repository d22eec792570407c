//! The report of a world that does one turn after the other.
ghost use Rattle.std.specs.Prelude.{◌≡◌, ◌+◌, ◌≤◌, IsFalse, length};
ghost use Rattle.settle.specs.Report.{quiet_turns_of};

use crate::nodes::{ONES, USUAL, world};
use crate::quiet::can_settle;
use cable_world::{Act, WorldRun};
use cabling::End;
use script_text::{Name, report_text, reports_can_be_shown};
use settle::settle;
use std::alloc::{AllocError, Global};
use std::test::Fail;
use topology_stack::NameList;

/// The text of the report that a world comes to, where each of its nodes has a name.
fn told<W: WorldRun>(alloc: Global, world: &mut W, names: &NameList) -> Result<Vec<u8>, AllocError>
    requires few { IsFalse (W.is_spent world.old) →
        (W.world world.old).turns + quiet_turns_of (W.world world.old) ≤ 4000000000 }
    requires named { length names.now ≡ length (W.world world.old).nodes }
{
    let report = settle(alloc, world)?;
    reports_can_be_shown(world);
    report_text(alloc, &report, 1, names)
}

/// The names of two nodes.
fn two_names(alloc: Global) -> Result<NameList, AllocError> {
    let mut names = NameList::new(alloc);
    for text in [b"a", b"b"] {
        if let Some(name) = Name::new(text.as_slice()) {
            names.push(name)?;
        }
    }
    Ok(names)
}

/// The text of two nodes that are joined.
const TOLD: &[u8] = b"report 1 turn 8128
component rounds 1 changed 299 nodes a b
tree root b
node 0 link 1 gap 63 speed 2 contender 0 power 0 initiated 1 ports ^1 . . name a
node 1 link 1 gap 63 speed 2 contender 0 power 0 initiated 1 ports v0 . . name b
nodes 2 root 1 irm none
";

#[test]
fn a_tree_is_told(rt: HostRuntime) -> Result<(), Fail> {
    let alloc = rt.alloc();
    let names = two_names(alloc)?;
    assert!(rt; names.as_slice().len() == 2);
    let mut world = world(&rt, alloc, &[USUAL, ONES], 4, false)?;
    world.act(&Act::Plug {
        a: End { node: 0, port: 0 },
        b: End { node: 1, port: 0 },
    })?;
    assert!(rt; can_settle(&world));
    assert!(rt; told(alloc, &mut world, &names)?.as_slice() == TOLD);
    Ok(())
}

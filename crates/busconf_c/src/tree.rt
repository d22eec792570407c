//! What is told of a bus tree.
ghost use Rattle.std.specs.Prelude.{◌≡◌, ◌≢◌, length, IfOk};
ghost use Rattle.topology_stack.specs.Tree.{walk, emits};
ghost use Rattle.topology_map.specs.Map.{IsMap};
ghost use Rattle.speed_map.specs.Rows.{AreRows};
ghost use Rattle.bus_manager.specs.Hops.{IsHops};
ghost use Rattle.busconf_c.specs.Answers.{AnswersTree};
ghost use Rattle.c_border.specs.Places.{Tells, TellsOk};
ghost use Rattle.busconf_c.specs.Maps.{IsSpeedMap};
ghost use Rattle.busconf_c.specs.Plans.{TellsPlan};

use crate::answer::tree_of;
use crate::records::PlanRecord;
use c_border::{NO_CANDIDATE, NO_MEMORY, OK, tell_bytes, tell_quads};
use c_records::FaultRecord;
use quad_lanes::{OutOfMemory, QuadList};
use std::alloc::Global;
use topology_stack::BusTree;

/// Tells the hops of a bus.
#[unsafe(no_mangle)]
pub extern "C" fn busconf_hops(
    alloc: Global,
    quads: &[u32],
    year: u32,
    hops: &mut u8,
    fault: &mut FaultRecord,
) -> u32
    ensures answer { AnswersTree year quads.now fault.old fault.new result
        (λ t. IsHops t hops.new × (result ≡ 0)) }
    ensures kept { result ≢ 0 → hops.new ≡ hops.old }
{
    match tree_of(alloc, quads, year, fault) {
        Ok(tree) => {
            *hops = bus_manager::hops(&tree);
            OK
        }
        Err(status) => status,
    }
}

/// The record of the root that suits a bus best.
fn plan_of(tree: &BusTree, plan: &mut PlanRecord) -> u32
    ensures { TellsPlan tree.now plan.old plan.new result }
{
    let Some(best) = root_plan::choose(tree) else {
        return NO_CANDIDATE;
    };
    *plan = PlanRecord {
        packet: best.packet,
        root: best.root_id,
        hops: best.hops,
        gap: best.gap,
        reach: best.far,
    };
    OK
}

/// Tells the root that suits a bus best, and the packet that makes it root.
#[unsafe(no_mangle)]
pub extern "C" fn busconf_plan(
    alloc: Global,
    quads: &[u32],
    year: u32,
    plan: &mut PlanRecord,
    fault: &mut FaultRecord,
) -> u32
    ensures answer { AnswersTree year quads.now fault.old fault.new result
        (λ t. TellsPlan t plan.old plan.new result) }
    ensures kept { result ≢ 0 → plan.new ≡ plan.old }
{
    match tree_of(alloc, quads, year, fault) {
        Ok(tree) => plan_of(&tree, plan),
        Err(status) => status,
    }
}

/// Tells the quadlets of an image, unless memory ran out for them.
fn tell_image(image: Result<QuadList, OutOfMemory>, place: &mut [u32], needed: &mut usize) -> u32
    ensures { TellsOk image place.old place.new needed.old needed.new result }
{
    match image {
        Ok(list) => tell_quads(list.as_slice(), place, needed),
        Err(_) => NO_MEMORY,
    }
}

/// Tells the image of a bus's topology map.
#[unsafe(no_mangle)]
pub extern "C" fn busconf_topology_map(
    alloc: Global,
    quads: &[u32],
    year: u32,
    generation: u32,
    place: &mut [u32],
    needed: &mut usize,
    fault: &mut FaultRecord,
) -> u32
    ensures answer { AnswersTree year quads.now fault.old fault.new result
        (λ t. Tells (IsMap generation (length (walk t)) (emits t)) place.old place.new needed.old
        needed.new result) }
    ensures kept { result ≢ 0 → place.new ≡ place.old }
    ensures needed_kept { result ≢ 0 → result ≢ 3 → needed.new ≡ needed.old }
{
    match tree_of(alloc, quads, year, fault) {
        Ok(tree) => tell_image(topology_map::image(alloc, &tree, generation), place, needed),
        Err(status) => status,
    }
}

/// Tells the rows of a tree's speed map, unless memory ran out for them.
fn tell_rows(alloc: Global, tree: &BusTree, place: &mut [u8], needed: &mut usize) -> u32
    ensures answer { Tells (AreRows tree.now) place.old place.new needed.old needed.new result }
    ensures kept { result ≢ 0 → place.new ≡ place.old }
    ensures needed_kept { result ≢ 0 → result ≢ 3 → needed.new ≡ needed.old }
{
    match speed_map::rows(alloc, tree) {
        Ok(rows) => tell_bytes(rows.as_slice(), place, needed),
        Err(_) => NO_MEMORY,
    }
}

/// Tells the rows of a bus's speed map.
#[unsafe(no_mangle)]
pub extern "C" fn busconf_speed_rows(
    alloc: Global,
    quads: &[u32],
    year: u32,
    place: &mut [u8],
    needed: &mut usize,
    fault: &mut FaultRecord,
) -> u32
    ensures answer { AnswersTree year quads.now fault.old fault.new result
        (λ t. Tells (AreRows t) place.old place.new needed.old needed.new result) }
    ensures kept { result ≢ 0 → place.new ≡ place.old }
    ensures needed_kept { result ≢ 0 → result ≢ 3 → needed.new ≡ needed.old }
{
    match tree_of(alloc, quads, year, fault) {
        Ok(tree) => tell_rows(alloc, &tree, place, needed),
        Err(status) => status,
    }
}

/// The image of a tree's speed map.
fn speed_image(alloc: Global, tree: &BusTree, generation: u32) -> Result<QuadList, OutOfMemory>
    ensures { IfOk result (λ quads. IsSpeedMap generation tree.now quads) }
{
    let _len = tree.len();
    let rows = speed_map::rows(alloc, tree)?;
    speed_map::image(alloc, &rows, generation)
}

/// Tells the image of a bus's speed map.
#[unsafe(no_mangle)]
pub extern "C" fn busconf_speed_map(
    alloc: Global,
    quads: &[u32],
    year: u32,
    generation: u32,
    place: &mut [u32],
    needed: &mut usize,
    fault: &mut FaultRecord,
) -> u32
    ensures answer { AnswersTree year quads.now fault.old fault.new result
        (λ t. Tells (IsSpeedMap generation t) place.old place.new needed.old needed.new result) }
    ensures kept { result ≢ 0 → place.new ≡ place.old }
    ensures needed_kept { result ≢ 0 → result ≢ 3 → needed.new ≡ needed.old }
{
    match tree_of(alloc, quads, year, fault) {
        Ok(tree) => tell_image(speed_image(alloc, &tree, generation), place, needed),
        Err(status) => status,
    }
}

//! Turns that are heard.
ghost use Rattle.std.specs.Prelude.{◌≡◌, ◌+◌, ◌<◌, ◌≤◌, ◌++◌, [], length, map, IfOk, OnOk, IsFalse};
ghost use Rattle.cable_world.specs.Turn.{turn, turns_after};
ghost use Rattle.cable_world.specs.Unchanged.{TurnsPass};
ghost use Rattle.script_trace.specs.Step.{seen_before_turn};
ghost use Rattle.script_trace.specs.Voice.{Legend, Voice, TellsNewsAlone, turns_told};

use crate::legend::Legend;
use crate::listener::Listener;
use crate::watch::seen_before_turn;
use cable_world::{still_turns_pass, turn_by_number, turns_add_up, worlds_stay_lawful};
use script_text::OutOfMemory;
use std::alloc::Global;
use world_agenda::TellsStillTurns;

/// Does a turn, and tells what happens in it.
fn turn_heard<W: TellsStillTurns, L: Listener>(
    alloc: Global,
    world: &mut W,
    legend: &Legend,
    listener: &mut L,
) -> Result<(), OutOfMemory>
    requires turns { (W.world world.old).turns < 4000000000 }
    requires few { length legend.now.names ≤ 63 }
    requires nodes { length legend.now.names ≡ length (W.world world.old).nodes }
    requires fine { IsFalse (W.is_spent world.old) }
    ensures done { OnOk result (W.world world.new ≡ turn (W.world world.old)) }
    ensures heard { OnOk result (L.written listener.new ≡ L.written listener.old
        ++ L.voice.since legend.now (map seen_before_turn (W.world world.old).nodes)
        (turn (W.world world.old))) }
    ensures passed { OnOk result (TurnsPass 1 (W.world world.old) (W.world world.new)) }
    ensures fine { OnOk result (IsFalse (W.is_spent world.new)) }
{
    turn_by_number();
    let touched = world.touched();
    let seen = seen_before_turn(alloc, &*world, legend.names.len(), touched)?;
    world.turn()?;
    listener.since(legend, touched, &seen, &*world)?;
    Ok(())
}

/// Passes over turns of which it is known that nothing happens in them, `most` at most. Nothing is told
/// of them. Answers how many these were.
fn pass_over<W: TellsStillTurns>(world: &mut W, most: u32) -> Result<u32, OutOfMemory>
    requires turns { (W.world world.old).turns + most ≤ 4000000000 }
    requires fine { IsFalse (W.is_spent world.old) }
    ensures most { IfOk result (λ k. k ≤ most) }
    ensures done { IfOk result (λ k. W.world world.new ≡ turns_after k (W.world world.old)) }
    ensures heard { IfOk result (λ k. (voice : Voice) (legend : Legend) → TellsNewsAlone voice →
        turns_told voice legend k (W.world world.old) ≡ []) }
    ensures passed { IfOk result (λ k. TurnsPass k (W.world world.old) (W.world world.new)) }
    ensures fine { OnOk result (IsFalse (W.is_spent world.new)) }
{
    still_turns_pass();
    let still = world.still_turns(most);
    world.run_turns(still)?;
    Ok(still)
}

/// Does `count` turns, and tells what happens in them, turn by turn.
fn hear_each<W: TellsStillTurns, L: Listener>(
    alloc: Global,
    world: &mut W,
    count: u32,
    legend: &Legend,
    listener: &mut L,
) -> Result<(), OutOfMemory>
    requires turns { (W.world world.old).turns + count ≤ 4000000000 }
    requires few { length legend.now.names ≤ 63 }
    requires nodes { length legend.now.names ≡ length (W.world world.old).nodes }
    requires fine { IsFalse (W.is_spent world.old) }
    ensures done { OnOk result (W.world world.new ≡ turns_after count (W.world world.old)) }
    ensures heard { OnOk result (L.written listener.new ≡ L.written listener.old
        ++ turns_told L.voice legend.now count (W.world world.old)) }
    ensures passed { OnOk result (TurnsPass count (W.world world.old) (W.world world.new)) }
    ensures fine { OnOk result (IsFalse (W.is_spent world.new)) }
{
    turns_add_up();
    listener.news();
    let mut done = pass_over(world, count)?;
    while done < count {
        turn_heard(alloc, world, legend, listener)?;
        done += 1;
        done += pass_over(world, count - done)?;
    }
    Ok(())
}

/// Does `count` turns, and tells what happens in them, turn by turn; at once, where the listener hears
/// nothing. With the turns done before they are at most 4,000,000,000.
pub fn hear_turns<W: TellsStillTurns, L: Listener>(
    alloc: Global,
    world: &mut W,
    count: u32,
    legend: &Legend,
    listener: &mut L,
) -> Result<(), OutOfMemory>
    requires turns { (W.world world.old).turns + count ≤ 4000000000 }
    requires few { length legend.now.names ≤ 63 }
    requires nodes { length legend.now.names ≡ length (W.world world.old).nodes }
    requires fine { IsFalse (W.is_spent world.old) }
    ensures done { OnOk result (W.world world.new ≡ turns_after count (W.world world.old)) }
    ensures heard { OnOk result (L.written listener.new ≡ L.written listener.old
        ++ turns_told L.voice legend.now count (W.world world.old)) }
    ensures passed { OnOk result (TurnsPass count (W.world world.old) (W.world world.new)) }
    ensures fine { OnOk result (IsFalse (W.is_spent world.new)) }
{
    if listener.hears() {
        return hear_each(alloc, world, count, legend, listener);
    }
    world.run_turns(count)
}

//! Turns of the wires that are live. The others are at rest, and stay as they are.
ghost use Rattle.std.specs.Prelude.{◌≡◌, ◌<◌, ◌≤◌, length, map, All, OnOk, IsTrue};
ghost use Rattle.cabling.specs.NodeSet.{Holds, AgreeBut, IsWithin};
ghost use Rattle.cable_world.specs.Wire.{arrives, stays};
ghost use Rattle.cable_world.specs.Still.{AreSilent, hold_less};
ghost use Rattle.cable_world.specs.running.Ages.{AreYoung};
ghost use Rattle.cable_world.specs.running.Rest.{AreAtRest, AreNone};
ghost use Rattle.world_agenda.specs.Agenda.{AreBelow};
ghost use Rattle.world_agenda.specs.Live.{RestBut, HasLive, HasGivers};

use cable_world::parts::{ArrivalRow, WireRow};
use cabling::{NodeSet, OutOfMemory};

/// Takes a node into the live ones, unless its wires are at rest.
pub fn note_live(row: &WireRow, node: u8, live: &mut NodeSet)
    requires { node < 63 }
    ensures rest { (Holds live.new node → ⊥) → AreAtRest row.now }
    ensures kept { IsWithin live.old live.new }
    ensures others { AgreeBut live.old live.new node }
{
    if !row.is_at_rest() {
        live.insert(node);
    }
}

/// Takes a node into a set, unless nothing arrives from its wires.
fn note_giver(arrivals: &ArrivalRow, node: u8, givers: &mut NodeSet)
    requires { node < 63 }
    ensures none { (Holds givers.new node → ⊥) → AreNone arrivals.now }
    ensures others { AgreeBut givers.old givers.new node }
{
    if !arrivals.is_none() {
        givers.insert(node);
    }
}

/// A turn of the wires of every node, where a cable delays by at most `delay` turns; `live` has each
/// node whose wires aren't at rest and `givers` each from whose wires something arrives, before and
/// after it. What arrives at their far ends takes the place of what is in `arrivals`.
pub fn turn_live(
    wires: &mut [WireRow],
    delay: u8,
    arrivals: &mut [ArrivalRow],
    live: &mut NodeSet,
    givers: &mut NodeSet,
) -> Result<(), OutOfMemory>
    requires few { length wires.old ≤ 63 }
    requires young { All (λ row. All AreYoung row) wires.old }
    requires same { map length arrivals.old ≡ map length wires.old }
    requires live { HasLive live.old wires.old }
    requires givers { HasGivers givers.old arrivals.old }
    ensures stays { OnOk result (wires.new ≡ map (map (stays delay)) wires.old) }
    ensures arrives { OnOk result (arrivals.new ≡ map (map (arrives delay)) wires.old) }
    ensures live { OnOk result (HasLive live.new wires.new) }
    ensures givers { OnOk result (HasGivers givers.new arrivals.new) }
{
    let mut left = live.union(*givers);
    let mut still = NodeSet::none();
    let mut giving = NodeSet::none();
    while let Some(node) = left.take_least() {
        let at = node as usize;
        wires[at].turn(delay, &mut arrivals[at])?;
        note_live(&wires[at], node, &mut still);
        note_giver(&arrivals[at], node, &mut giving);
    }
    *live = still;
    *givers = giving;
    Ok(())
}

/// Whether no signal is under way. The wires of the nodes that aren't in `live` are at rest.
pub fn live_silent(wires: &[WireRow], live: NodeSet) -> bool
    requires near { AreBelow live (length wires.now) }
    requires rest { RestBut live wires.now }
    ensures { IsTrue result → AreSilent wires.now }
{
    let mut left = live;
    while let Some(node) = left.take_least() {
        if !wires[node as usize].is_silent() {
            return false;
        }
    }
    true
}

/// So many turns of the wires pass, on which nothing is under way. The wires of the nodes that aren't
/// in `live` are at rest.
pub fn pass_live(wires: &mut [WireRow], turns: u32, live: NodeSet)
    requires near { AreBelow live (length wires.old) }
    requires rest { RestBut live wires.old }
    ensures { wires.new ≡ map (map (hold_less turns)) wires.old }
{
    let mut left = live;
    while let Some(node) = left.take_least() {
        wires[node as usize].pass(turns);
    }
}

//! The wires that leave a node, and what arrives at their far ends.
ghost use Rattle.std.specs.Prelude.{◌≡◌, ◌<◌, ◌≤◌, ◌-◌, ℕ, false, [], ◌&&◌, nat_lt, length, map, replicate, take, drop, slice_set, slice_index, slice_index_or, All, OnOk, IfOk, ◌↔◌, IsTrue, IsFalse, if◌then◌else◌};
ghost use Rattle.port_state.specs.Ports.{PortNumber};
ghost use Rattle.port_state.specs.PortSet.{has_port, all_sent};
ghost use Rattle.cable_world.specs.Wire.{empty_wire, arrives, stays};
ghost use Rattle.cable_world.specs.Turn.{wires_after_sends};
ghost use Rattle.cable_world.specs.Still.{IsSilent, hold_less};
ghost use Rattle.cable_world.specs.running.Ages.{AreYoung};
ghost use Rattle.cable_world.specs.running.Rest.{AreAtRest, AreNone};
ghost use Rattle.cable_world.specs.running.Rows.{on_port, signals_on, keeps};
ghost use Rattle.cable_world.specs.running.Tally.{IsTally};

use crate::signals::Signals;
use crate::tally::Tally;
use crate::wire::{UnderWay, add_all, clear_port, is_due, part, ports_of};
use cabling::OutOfMemory;
use port_state::{PortSet, Sent};
use std::alloc::Global;
use std::marker::Model;
use std::mem::swap;

/// The wires that leave a node, that of port 0 first.
#[derive(Debug, Drop)]
pub struct WireRow {
    // What is under way, the oldest first.
    sent: Vec<UnderWay>,
    // For how many turns to come each wire is held.
    held: Vec<u16>,
    // The ports.
    ports: PortSet,
    // Whether some wire may be held.
    holds: bool,
    // For each port a place in `sent` before which nothing is under way on its wire: what was cleared
    // isn't looked at again.
    cleared: [u32; 16],
    // What is counted of `sent`.
    counted: Tally,
    ghost free: { IsFalse holds → All (λ h. h ≡ 0) held.items },
    ghost row: { (k : ℕ) → has_port ports k ≡ (nat_lt k 16 && nat_lt k (length held.items)) },
    ghost gone: { (p : ℕ) → (slice_index cleared p ≤ length sent.items)
        × (on_port p (take (slice_index cleared p) sent.items) ≡ []) },
    ghost tally: { IsTally counted sent.items },
}

impl Model for WireRow {
    ghost use Rattle.std.specs.Prelude.{List};
    ghost use Rattle.cable_world.specs.Wire.{Wire};
    ghost use Rattle.cable_world.specs.running.Rows.{wires_from};

    ghost Value = { List Wire };

    ghost view = { λ r. wires_from 0 r.sent.items r.held.items };
}

/// What arrives from the wires that leave a node, that of port 0 first.
#[derive(Debug, Drop)]
pub struct ArrivalRow {
    // What arrives, the oldest first.
    sent: Vec<UnderWay>,
    // The number of wires.
    ports: u8,
}

impl Model for ArrivalRow {
    ghost use Rattle.std.specs.Prelude.{List};
    ghost use Rattle.port_state.specs.declared.signal.Signal.{Signal};
    ghost use Rattle.cable_world.specs.running.Rows.{arrivals_from};

    ghost Value = { List (List Signal) };

    ghost view = { λ r. arrivals_from r.ports 0 r.sent.items };
}

impl ArrivalRow {
    /// Nothing arrives from so many wires.
    pub fn new(alloc: Global, ports: u8) -> ArrivalRow
        ensures { result ≡ replicate ports [] }
    {
        ArrivalRow {
            sent: Vec::new(alloc),
            ports,
        }
    }

    /// Whether it is known that nothing arrives.
    pub fn is_none(&self) -> bool
        ensures { IsTrue result → AreNone self.now }
    {
        self.sent.is_empty()
    }

    /// The ports from whose wires something arrives. From a port in the set nothing may arrive where
    /// the row has no wire of it.
    pub fn ports(&self) -> PortSet
        ensures { (p : ℕ) → has_port result p ≡ false → slice_index_or self.now p [] ≡ [] }
    {
        ports_of(&self.sent)
    }

    /// What arrives, with the ports from whose wires it does, where the row has a wire of this port.
    pub(crate) fn at(&self, port: u8) -> &[UnderWay]
        ensures { signals_on port result.now ≡ slice_index_or self.now port [] }
    {
        if port >= self.ports {
            return &[];
        }
        self.sent.as_slice()
    }
}

/// The ports whose wires keep what is under way in a turn, where a cable delays by at most `delay`
/// turns.
fn keeping(sent: &[UnderWay], held: &[u16], delay: u8) -> PortSet
    ensures { (k : ℕ) → k < length held.now → has_port result k
        ≡ (nat_lt k 16 && keeps delay k sent.now (slice_index held.now k)) }
{
    let mut kept = PortSet::none();
    for port in 0..held.len().min(16) {
        let at = port as u8;
        if held[port] != 0 && !is_due(sent, at, delay) {
            kept.insert(at);
        }
    }
    kept
}

/// Each hold has so many turns less to go. Answers whether some is left.
fn count_down(held: &mut [u16], turns: u32) -> bool
    ensures less { held.new ≡ map (λ h. h - turns) held.old }
    ensures left { IsFalse result → All (λ h. h ≡ 0) held.new }
{
    let mut left = false;
    for at in 0..held.len() {
        let turns_left = u32::from(held[at]).saturating_sub(turns);
        held[at] = turns_left as u16;
        left |= turns_left != 0;
    }
    left
}

/// What is under way arrives, in place of what did before, and nothing is under way. Mostly nothing
/// was, and then only what arrived before goes.
#[inline(always)]
fn hand_over(
    sent: &mut Vec<UnderWay>,
    cleared: &mut [u32; 16],
    counted: &mut u32,
    arrivals: &mut Vec<UnderWay>,
)
    ensures none { sent.new.items ≡ [] }
    ensures arrives { arrivals.new.items ≡ sent.old.items }
    ensures cleared { (p : ℕ) → slice_index cleared.old p ≤ length sent.old.items
        → slice_index cleared.new p ≡ 0 }
    ensures counted { counted.old ≤ length sent.old.items → counted.new ≡ 0 }
{
    arrivals.clear();
    if !sent.is_empty() {
        *cleared = [0; 16];
        *counted = 0;
        swap(sent, arrivals);
    }
}

impl WireRow {
    /// The wires of a node with so many ports: nothing is under way, and none is held.
    pub fn new(alloc: Global, ports: u8) -> Result<WireRow, OutOfMemory>
        ensures { IfOk result (λ row. row ≡ replicate ports empty_wire) }
    {
        let mut held = Vec::with_capacity(alloc, ports as usize)?;
        let mut row = PortSet::none();
        for port in 0..ports {
            held.push(0)?;
            row.insert(port);
        }
        Ok(WireRow {
            sent: Vec::new(alloc),
            held,
            ports: row,
            holds: false,
            cleared: [0; 16],
            counted: Tally::none(),
        })
    }

    /// Sends signals on ports, the first first. What is sent on a port that doesn't exist is lost.
    pub fn send_all(&mut self, sends: &[Sent]) -> Result<(), OutOfMemory>
        ensures sent { OnOk result (self.new ≡ wires_after_sends 0 (all_sent sends.now) self.old) }
        ensures ports { length self.new ≡ length self.old }
    {
        add_all(&mut self.sent, sends)?;
        Ok(())
    }

    /// Takes away what is under way on the wire of a port, and a hold. The port exists.
    pub fn clear(&mut self, port: u8)
        requires { port < length self.old }
        ensures { self.new ≡ slice_set self.old port empty_wire }
    {
        let at = usize::from(port);
        self.held[at] = 0;
        if at < 16 {
            clear_port(&mut self.sent, self.cleared[at] as usize, port);
            self.cleared[at] = self.sent.len().min(u32::MAX as usize) as u32;
            self.counted.counts[at] = 0;
        }
    }

    /// Holds the wire of a port for so many turns. The port exists.
    pub fn hold(&mut self, port: u8, turns: u16)
        requires { port < length self.old }
        ensures { self.new
            ≡ slice_set self.old port
            (record (slice_index_or self.old port empty_wire) { held = turns }) }
    {
        self.holds = true;
        self.held[port as usize] = turns;
    }

    /// A turn of the wires, where a cable delays by at most `delay` turns. What arrives at their far
    /// ends takes the place of what is in `arrivals`, which is of as many wires.
    pub fn turn(&mut self, delay: u8, arrivals: &mut ArrivalRow) -> Result<(), OutOfMemory>
        requires young { All AreYoung self.old }
        requires same { length arrivals.old ≡ length self.old }
        ensures stays { OnOk result (self.new ≡ map (stays delay) self.old) }
        ensures arrives { OnOk result (arrivals.new ≡ map (arrives delay) self.old) }
        ensures ports { length self.new ≡ length self.old }
        ensures rows { length arrivals.new ≡ length arrivals.old }
    {
        hand_over(
            &mut self.sent,
            &mut self.cleared,
            &mut self.counted.entries,
            &mut arrivals.sent,
        );
        if !self.holds {
            return Ok(());
        }
        let kept = keeping(&arrivals.sent, &self.held, delay);
        part(kept, &mut arrivals.sent, &mut self.sent)?;
        self.holds = count_down(&mut self.held, 1);
        Ok(())
    }

    /// How many signals are under way on the wire of a port: none where the port doesn't exist.
    pub fn count(&self, port: u8) -> usize
        ensures { result ≡ length (slice_index_or self.now port empty_wire).signals }
    {
        if usize::from(port) >= self.held.len() {
            return 0;
        }
        self.counted.count(&self.sent, port)
    }

    /// What is under way on the wire of a port, behind so many of the oldest: nothing where the port
    /// doesn't exist.
    pub fn under_way(&self, port: u8, past: usize) -> Signals<'_>
        ensures { result ≡ drop past (slice_index_or self.now port empty_wire).signals }
    {
        if usize::from(port) >= self.held.len() {
            return Signals::none();
        }
        self.counted.signals(&self.sent, port, past)
    }

    /// Counts what is under way on each wire: `count`, and `under_way` behind what is counted, then go
    /// over what is sent later alone.
    pub fn tally(&mut self)
        ensures { self.new ≡ self.old }
    {
        self.counted.count_all(&self.sent);
    }

    /// Whether nothing is under way on the wires.
    pub fn is_silent(&self) -> bool
        ensures { IsTrue result ↔ All IsSilent self.now }
    {
        if self.sent.is_empty() {
            return true;
        }
        ports_of(&self.sent).both(self.ports).is_none()
    }

    /// Whether it is known that nothing is under way on the wires, and that none is held.
    pub fn is_at_rest(&self) -> bool
        ensures { IsTrue result → AreAtRest self.now }
    {
        !self.holds && self.sent.is_empty()
    }

    /// So many turns pass, in which nothing is under way.
    pub fn pass(&mut self, turns: u32)
        ensures { self.new ≡ map (hold_less turns) self.old }
    {
        if self.holds {
            self.holds = count_down(&mut self.held, turns);
        }
    }
}

//! What is under way on the wires of a node, as entries: a signal that was sent on some ports at once is
//! one entry, and an older entry comes before a later one.
ghost use Rattle.std.specs.Prelude.{◌≡◌, ◌==◌, ◌↔◌, ℕ, false, [], ◌++◌, map, length, take, OnOk, if◌then◌else◌};
ghost use Rattle.port_state.specs.PortSet.{has_port, all_sent};
ghost use Rattle.port_state.specs.Sends.{sent_on};
ghost use Rattle.cable_world.specs.Wire.{new_signal, age_signal, front_is_due};
ghost use Rattle.cable_world.specs.running.Rows.{on_port, older};

use cabling::OutOfMemory;
use port_state::{PortSet, Sent, Signal};

/// A signal under way, and for how many turns it has been.
#[derive(Clone, Copy, Debug, PartialEq, Eq)]
pub struct Travelling {
    /// The signal.
    pub signal: Signal,
    /// For how many turns it has been under way.
    pub age: u8,
}

/// A signal under way on the wires of some of a node's ports, on which it was sent at once.
#[derive(Clone, Copy, Debug)]
pub struct UnderWay {
    /// The ports.
    pub ports: PortSet,
    /// The signal.
    pub signal: Signal,
    /// For how many turns it has been under way.
    pub age: u8,
}

/// For so many signals that are under way there is room with the first.
const ROOM: usize = 16;

/// The ports on whose wires something is under way.
pub fn ports_of(sent: &[UnderWay]) -> PortSet
    ensures { (p : ℕ) → (has_port result p ≡ false) ↔ (on_port p sent.now ≡ []) }
{
    let mut ports = PortSet::none();
    for entry in sent {
        ports = ports.union(entry.ports);
    }
    ports
}

/// How many signals are under way on the wire of a port.
pub fn count_on(sent: &[UnderWay], port: u8) -> usize
    ensures { result ≡ length (on_port port sent.now) }
{
    let mut count = 0;
    for entry in sent {
        if entry.ports.has(port) {
            count += 1;
        }
    }
    count
}

/// Whether the oldest signal on the wire of a port is due once it is a turn older, where a cable delays
/// by at most `delay` turns.
pub fn is_due(sent: &[UnderWay], port: u8, delay: u8) -> bool
    ensures { result ≡ front_is_due delay (map age_signal (on_port port sent.now)) }
{
    for entry in sent {
        if entry.ports.has(port) {
            return u16::from(delay) <= u16::from(entry.age) + 1;
        }
    }
    false
}

/// What was sent just now, on its way.
fn just_sent(entry: &Sent) -> UnderWay
    ensures { result ≡ record { ports = entry.now.ports; signal = entry.now.signal; age = 0 } }
{
    UnderWay {
        ports: entry.ports,
        signal: entry.signal,
        age: 0,
    }
}

/// Puts what is sent behind what is under way. Mostly it is one signal, for which there is room.
#[inline(always)]
pub fn add_all(sent: &mut Vec<UnderWay>, sends: &[Sent]) -> Result<(), OutOfMemory>
    ensures sent { OnOk result ((p : ℕ) → on_port p sent.new.items
        ≡ on_port p sent.old.items ++ map new_signal (sent_on p (all_sent sends.now))) }
    ensures behind { take (length sent.old.items) sent.new.items ≡ sent.old.items }
{
    if let [entry] = sends {
        if sent.len() < sent.capacity() {
            sent.push(just_sent(entry))?;
            return Ok(());
        }
    }
    add_each(sent, sends)
}

/// The same, whatever is sent.
#[inline(never)]
fn add_each(sent: &mut Vec<UnderWay>, sends: &[Sent]) -> Result<(), OutOfMemory>
    ensures sent { OnOk result ((p : ℕ) → on_port p sent.new.items
        ≡ on_port p sent.old.items ++ map new_signal (sent_on p (all_sent sends.now))) }
    ensures behind { take (length sent.old.items) sent.new.items ≡ sent.old.items }
{
    if sent.capacity() == 0 {
        sent.reserve(ROOM)?;
    }
    for entry in sends {
        sent.push(just_sent(entry))?;
    }
    Ok(())
}

/// Takes away what is under way on the wire of a port. No entry before the place `from` has the port.
pub fn clear_port(sent: &mut [UnderWay], from: usize, port: u8)
    requires { on_port port (take from sent.old) ≡ [] }
    ensures { (p n : ℕ) → on_port p (take n sent.new)
        ≡ (if p == port then [] else on_port p (take n sent.old)) }
{
    for at in from..sent.len() {
        sent[at].ports.remove(port);
    }
}

/// Parts what was under way into what stays on the wires of these ports, a turn older, and what
/// arrives from the others.
pub fn part(
    ports: PortSet,
    arriving: &mut [UnderWay],
    staying: &mut Vec<UnderWay>,
) -> Result<(), OutOfMemory>
    requires { staying.old.items ≡ [] }
    ensures stays { OnOk result ((p : ℕ) → on_port p staying.new.items
        ≡ (if has_port ports p then map older (on_port p arriving.old) else [])) }
    ensures arrives { OnOk result ((p : ℕ) → on_port p arriving.new
        ≡ (if has_port ports p then [] else on_port p arriving.old)) }
{
    for at in 0..arriving.len() {
        let entry = &arriving[at];
        let kept = entry.ports.both(ports);
        if kept.is_none() {
            continue;
        }
        let given = entry.ports.minus(ports);
        staying.push(UnderWay {
            ports: kept,
            signal: entry.signal,
            age: entry.age.saturating_add(1),
        })?;
        arriving[at].ports = given;
    }
    Ok(())
}

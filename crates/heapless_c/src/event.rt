//! The events of a trace.
ghost use Rattle.std.specs.Prelude.{◌≡◌};
ghost use Rattle.heapless_c.specs.Events.{number_or_none, state_number, signal_number, quad_of_signal, at_node, what_record, event_record, TellsEvent};

use crate::records::{EventRecord, NUMBER_NONE};
use c_border::{OK, REFUSED};
use port_state::{Phase, Signal};
use trace_event::{Event, Part, What, event_at};

/// A number, or what stands for none.
fn number_or_none(number: Option<u32>) -> u32
    ensures { result ≡ number_or_none number }
{
    match number {
        Some(number) => number,
        None => NUMBER_NONE,
    }
}

/// The number of a state in the standard's order, from R0, 0, to A0, 7.
fn state_number(phase: Phase) -> u32
    ensures { result ≡ state_number phase }
{
    match phase {
        Phase::ResetStart => 0,
        Phase::ResetWait => 1,
        Phase::TreeStart => 2,
        Phase::ChildShake => 3,
        Phase::ParentShake => 4,
        Phase::Contend => 5,
        Phase::SelfIdent => 6,
        Phase::Ready => 7,
    }
}

/// The number of a signal.
fn signal_number(signal: Signal) -> u32
    ensures { result ≡ signal_number signal }
{
    match signal {
        Signal::Reset => 0,
        Signal::Idle => 1,
        Signal::Parent => 2,
        Signal::Child => 3,
        Signal::Grant => 4,
        Signal::Packet(_) => 5,
        Signal::Done => 6,
    }
}

/// The quadlet of a packet, 0 for any other signal.
fn quad_of_signal(signal: Signal) -> u32
    ensures { result ≡ quad_of_signal signal }
{
    match signal {
        Signal::Packet(quad) => quad,
        _ => 0,
    }
}

/// The record of a kind in a turn, at a node and on a port of it, with what the kind says.
fn at_node(kind: u8, turn: u32, name: Part, port: u32, value: u32, second: u32) -> EventRecord
    ensures { result ≡ at_node kind turn name port value second }
{
    EventRecord {
        name: name.start,
        name_length: name.len,
        other: 0,
        other_length: 0,
        turn,
        port,
        other_port: 0,
        value,
        second,
        kind,
    }
}

/// The record of what happens in a turn.
fn what_record(turn: u32, what: What) -> EventRecord
    ensures { result ≡ what_record turn what }
{
    match what {
        What::Plug {
            a,
            a_port,
            b,
            b_port,
        } => EventRecord {
            other: b.start,
            other_length: b.len,
            other_port: b_port,
            ..at_node(1, turn, a, a_port, 0, 0)
        },
        What::Pull { name, port } => at_node(2, turn, name, port, 0, 0),
        What::Reset { name } => at_node(3, turn, name, 0, 0, 0),
        What::Hold { name, port, turns } => at_node(4, turn, name, port, turns, 0),
        What::Config { name, root_id, gap } => {
            at_node(
                5,
                turn,
                name,
                0,
                number_or_none(root_id),
                number_or_none(gap),
            )
        }
        What::Enters { node, phase } => at_node(6, turn, node, 0, state_number(phase), 0),
        What::Timeout { node } => at_node(7, turn, node, 0, 0, 0),
        What::ToParent { node, port } => at_node(8, turn, node, port, 0, 0),
        What::ToChild { node, port } => at_node(9, turn, node, port, 0, 0),
        What::Coin { node, coin, wait } => at_node(10, turn, node, 0, wait, number_or_none(coin)),
        What::PhyId { node, id } => at_node(11, turn, node, 0, id, 0),
        What::Sends { node, port, signal } => {
            at_node(
                12,
                turn,
                node,
                port,
                signal_number(signal),
                quad_of_signal(signal),
            )
        }
        What::Misses { node } => at_node(13, turn, node, 0, 0, 0),
    }
}

/// The record of an event.
fn event_record(event: Event) -> EventRecord
    ensures { result ≡ event_record event }
{
    what_record(event.turn, event.what)
}

/// Tells the event whose line stands at a place of a text, and the place behind the line.
#[unsafe(no_mangle)]
pub extern "C" fn busconf_trace_event(
    text: &[u8],
    at: usize,
    event: &mut EventRecord,
    next: &mut usize,
) -> u32
    ensures { TellsEvent text.now at event.old event.new next.old next.new result }
{
    let Some(found) = event_at(text, at) else {
        return REFUSED;
    };
    *event = event_record(found.event);
    *next = found.next;
    OK
}

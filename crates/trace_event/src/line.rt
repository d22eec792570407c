//! The line of an event.
ghost use Rattle.std.specs.Prelude.{◌≡◌, ℕ, true, IfSome, IsSome};
ghost use Rattle.trace_event.specs.declared.event.Event.{Event};
ghost use Rattle.trace_event.specs.declared.event.What.{What};
ghost use Rattle.trace_event.specs.Event.{HasNumbers, IsWhatAt, IsEventAt, IsShownAt};
ghost use Rattle.trace_event.specs.codings.Kind.{is_act, is_of_node, is_of_port};

use crate::acts::{config_at, hold_at, plug_at, pull_at, reset_at};
use crate::event::{Event, What};
use crate::happenings::{
    child_at, coin_at, enters_at, id_at, misses_at, parent_at, sends_at, timeout_at,
};
use crate::words::number_at;

/// What happens, and the place behind its line.
#[derive(Clone, Copy)]
pub(crate) struct WhatRead {
    pub(crate) what: What,
    pub(crate) next: usize,
}

/// An event, and the place behind its line.
#[derive(Clone, Copy, Debug, PartialEq, Eq)]
pub struct Found {
    /// The event.
    pub event: Event,
    /// The place behind the line feed, in bytes from 0.
    pub next: usize,
}

/// An act or a hold.
fn act_at(text: &[u8], at: usize) -> Option<WhatRead>
    ensures found { IfSome result (λ r. IsWhatAt text.now at r.what r.next) }
    ensures only { (what : What) (next : ℕ) → is_act what ≡ true →
        IsWhatAt text.now at what next → HasNumbers what → IsSome result }
{
    if let Some(found) = plug_at(text, at) {
        return Some(found);
    }
    if let Some(found) = pull_at(text, at) {
        return Some(found);
    }
    if let Some(found) = reset_at(text, at) {
        return Some(found);
    }
    if let Some(found) = hold_at(text, at) {
        return Some(found);
    }
    config_at(text, at)
}

/// What happens at a node as a whole.
fn node_at(text: &[u8], at: usize) -> Option<WhatRead>
    ensures found { IfSome result (λ r. IsWhatAt text.now at r.what r.next) }
    ensures only { (what : What) (next : ℕ) → is_of_node what ≡ true →
        IsWhatAt text.now at what next → HasNumbers what → IsSome result }
{
    if let Some(found) = enters_at(text, at) {
        return Some(found);
    }
    if let Some(found) = timeout_at(text, at) {
        return Some(found);
    }
    if let Some(found) = coin_at(text, at) {
        return Some(found);
    }
    if let Some(found) = id_at(text, at) {
        return Some(found);
    }
    misses_at(text, at)
}

/// What happens on a port of a node.
fn port_event_at(text: &[u8], at: usize) -> Option<WhatRead>
    ensures found { IfSome result (λ r. IsWhatAt text.now at r.what r.next) }
    ensures only { (what : What) (next : ℕ) → is_of_port what ≡ true →
        IsWhatAt text.now at what next → HasNumbers what → IsSome result }
{
    if let Some(found) = sends_at(text, at) {
        return Some(found);
    }
    if let Some(found) = parent_at(text, at) {
        return Some(found);
    }
    child_at(text, at)
}

/// What happens, behind the turn.
fn what_at(text: &[u8], at: usize) -> Option<WhatRead>
    ensures found { IfSome result (λ r. IsWhatAt text.now at r.what r.next) }
    ensures only { (what : What) (next : ℕ) → IsWhatAt text.now at what next →
        HasNumbers what → IsSome result }
{
    if let Some(found) = port_event_at(text, at) {
        return Some(found);
    }
    if let Some(found) = node_at(text, at) {
        return Some(found);
    }
    act_at(text, at)
}

/// The event whose line stands at a place of a text, as a trace has it: `turn T`, what happens, and a line
/// feed. If the line of an event stands there, one is found. A line that can be read in two ways, as that of a cable
/// between nodes `coin` and `wait`, is found as one of them.
#[tactic(auto, using(crate::proofs::Chain::both))]
pub fn event_at(text: &[u8], at: usize) -> Option<Found>
    ensures found { IfSome result (λ f. IsEventAt text.now at f.event f.next) }
    ensures only { (event : Event) (next : ℕ) → IsShownAt text.now at event next → IsSome result }
{
    let turn = number_at(text, at, b"turn ")?;
    let found = what_at(text, turn.next)?;
    let event = Event {
        turn: turn.value,
        what: found.what,
    };
    Some(Found {
        event,
        next: found.next,
    })
}

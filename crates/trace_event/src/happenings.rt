//! The lines of what happens at a node.
ghost use Rattle.std.specs.Prelude.{◌≡◌, ℕ, ◌<◌, ◌≤◌, ◌++◌, List, Option, codes, length, IfSome, IsSome, IsSomeAnd};
ghost use Rattle.port_state.specs.declared.signal.Phase.{Phase};
ghost use Rattle.port_state.specs.declared.signal.Signal.{Signal};
ghost use Rattle.trace_event.specs.declared.event.Part.{Part};
ghost use Rattle.trace_event.specs.Stands.{Stands};
ghost use Rattle.trace_event.specs.Event.{state_words, signal_words, coin_digit, IsShort, IsWhatAt};

use crate::event::What;
use crate::line::WhatRead;
use crate::words::{ChoiceRead, name_at, number_at, port_at, quad_at, word_at};
use port_state::{Phase, Signal};

/// A state, and the place behind it.
#[derive(Clone, Copy)]
struct StateRead {
    phase: Phase,
    next: usize,
}

/// A signal, and the place behind it.
#[derive(Clone, Copy)]
struct SignalRead {
    signal: Signal,
    next: usize,
}

/// The words for a state that is entered.
fn state_words(phase: Phase) -> &'static [u8]
    ensures { result.now ≡ state_words phase }
{
    match phase {
        Phase::ResetStart => b" enters R0",
        Phase::ResetWait => b" enters R1",
        Phase::TreeStart => b" enters T0",
        Phase::ChildShake => b" enters T1",
        Phase::ParentShake => b" enters T2",
        Phase::Contend => b" enters T3",
        Phase::SelfIdent => b" enters S0",
        Phase::Ready => b" enters A0",
    }
}

/// A state, if its words stand at a place.
fn this_state_at(text: &[u8], at: usize, phase: Phase) -> Option<StateRead>
    ensures found { IfSome result (λ r. Stands text.now at (state_words r.phase) r.next) }
    ensures only { (w : List ℕ) (next : ℕ) → Stands text.now at (state_words phase ++ w) next →
        IsSome result }
{
    let next = word_at(text, at, state_words(phase))?;
    Some(StateRead { phase, next })
}

/// The state whose words stand at a place.
fn state_at(text: &[u8], at: usize) -> Option<StateRead>
    ensures found { IfSome result (λ r. Stands text.now at (state_words r.phase) r.next) }
    ensures only { (phase : Phase) (w : List ℕ) (next : ℕ) →
        Stands text.now at (state_words phase ++ w) next →
        IsSomeAnd result (λ r. Stands text.now r.next w next) }
{
    if let Some(found) = this_state_at(text, at, Phase::ResetStart) {
        return Some(found);
    }
    if let Some(found) = this_state_at(text, at, Phase::ResetWait) {
        return Some(found);
    }
    if let Some(found) = this_state_at(text, at, Phase::TreeStart) {
        return Some(found);
    }
    if let Some(found) = this_state_at(text, at, Phase::ChildShake) {
        return Some(found);
    }
    if let Some(found) = this_state_at(text, at, Phase::ParentShake) {
        return Some(found);
    }
    if let Some(found) = this_state_at(text, at, Phase::Contend) {
        return Some(found);
    }
    if let Some(found) = this_state_at(text, at, Phase::SelfIdent) {
        return Some(found);
    }
    this_state_at(text, at, Phase::Ready)
}

/// A state that is entered.
#[tactic(auto, using(crate::proofs::Chain::both))]
pub(crate) fn enters_at(text: &[u8], at: usize) -> Option<WhatRead>
    ensures found { IfSome result (λ r. IsWhatAt text.now at r.what r.next) }
    ensures only { (node : Part) (phase : Phase) (next : ℕ) →
        IsWhatAt text.now at (What.Enters node phase) next → IsSome result }
{
    let node = name_at(text, at)?;
    let state = state_at(text, node.next)?;
    let next = word_at(text, state.next, b"\n")?;
    let what = What::Enters {
        node: node.name,
        phase: state.phase,
    };
    Some(WhatRead { what, next })
}

/// A configuration timeout.
pub(crate) fn timeout_at(text: &[u8], at: usize) -> Option<WhatRead>
    ensures found { IfSome result (λ r. IsWhatAt text.now at r.what r.next) }
    ensures only { (node : Part) (next : ℕ) →
        IsWhatAt text.now at (What.Timeout node) next → IsSome result }
{
    let node = name_at(text, at)?;
    let behind = word_at(text, node.next, b" configuration timeout")?;
    let next = word_at(text, behind, b"\n")?;
    let what = What::Timeout { node: node.name };
    Some(WhatRead { what, next })
}

/// A turn that the clock of a node misses.
pub(crate) fn misses_at(text: &[u8], at: usize) -> Option<WhatRead>
    ensures found { IfSome result (λ r. IsWhatAt text.now at r.what r.next) }
    ensures only { (node : Part) (next : ℕ) →
        IsWhatAt text.now at (What.Misses node) next → IsSome result }
{
    let node = name_at(text, at)?;
    let behind = word_at(text, node.next, b" misses a tick")?;
    let next = word_at(text, behind, b"\n")?;
    let what = What::Misses { node: node.name };
    Some(WhatRead { what, next })
}

/// A port to the parent.
pub(crate) fn parent_at(text: &[u8], at: usize) -> Option<WhatRead>
    ensures found { IfSome result (λ r. IsWhatAt text.now at r.what r.next) }
    ensures only { (node : Part) (port next : ℕ) →
        IsWhatAt text.now at (What.ToParent node port) next → port < 4294967296 → IsSome result }
{
    let port = port_at(text, at)?;
    let behind = word_at(text, port.next, b" to its parent")?;
    let next = word_at(text, behind, b"\n")?;
    let what = What::ToParent {
        node: port.name,
        port: port.port,
    };
    Some(WhatRead { what, next })
}

/// A port to a child.
pub(crate) fn child_at(text: &[u8], at: usize) -> Option<WhatRead>
    ensures found { IfSome result (λ r. IsWhatAt text.now at r.what r.next) }
    ensures only { (node : Part) (port next : ℕ) →
        IsWhatAt text.now at (What.ToChild node port) next → port < 4294967296 → IsSome result }
{
    let port = port_at(text, at)?;
    let behind = word_at(text, port.next, b" to a child")?;
    let next = word_at(text, behind, b"\n")?;
    let what = What::ToChild {
        node: port.name,
        port: port.port,
    };
    Some(WhatRead { what, next })
}

/// The coin that stands at a place, or none.
fn coin_digit_at(text: &[u8], at: usize) -> ChoiceRead
    requires { at ≤ length text.now }
    ensures found { Stands text.now at (coin_digit result.choice) result.next }
    ensures only { (o : Option ℕ) (w : List ℕ) (next : ℕ) →
        Stands text.now at (coin_digit o ++ (codes " wait " ++ w)) next → IsShort o →
        Stands text.now result.next (codes " wait " ++ w) next }
{
    match number_at(text, at, b" ") {
        Some(number) => ChoiceRead {
            choice: Some(number.value),
            next: number.next,
        },
        None => ChoiceRead {
            choice: None,
            next: at,
        },
    }
}

/// A coin.
#[tactic(auto, using(crate::proofs::Chain::both))]
pub(crate) fn coin_at(text: &[u8], at: usize) -> Option<WhatRead>
    ensures found { IfSome result (λ r. IsWhatAt text.now at r.what r.next) }
    ensures only { (node : Part) (coin : Option ℕ) (wait next : ℕ) →
        IsWhatAt text.now at (What.Coin node coin wait) next → IsShort coin → wait < 4294967296 →
        IsSome result }
{
    let node = name_at(text, at)?;
    let behind = word_at(text, node.next, b" coin")?;
    let coin = coin_digit_at(text, behind);
    let wait = number_at(text, coin.next, b" wait ")?;
    let next = word_at(text, wait.next, b"\n")?;
    let what = What::Coin {
        node: node.name,
        coin: coin.choice,
        wait: wait.value,
    };
    Some(WhatRead { what, next })
}

/// An ID that is taken.
#[tactic(auto, using(crate::proofs::Chain::both))]
pub(crate) fn id_at(text: &[u8], at: usize) -> Option<WhatRead>
    ensures found { IfSome result (λ r. IsWhatAt text.now at r.what r.next) }
    ensures only { (node : Part) (id next : ℕ) →
        IsWhatAt text.now at (What.PhyId node id) next → id < 4294967296 → IsSome result }
{
    let node = name_at(text, at)?;
    let id = number_at(text, node.next, b" phy_ID ")?;
    let next = word_at(text, id.next, b"\n")?;
    let what = What::PhyId {
        node: node.name,
        id: id.value,
    };
    Some(WhatRead { what, next })
}

/// A signal, if its words stand at a place.
fn this_signal_at(text: &[u8], at: usize, words: &[u8], signal: Signal) -> Option<SignalRead>
    requires { words.now ≡ signal_words signal }
    ensures found { IfSome result (λ r. Stands text.now at (signal_words r.signal) r.next) }
    ensures only { (w : List ℕ) (next : ℕ) → Stands text.now at (signal_words signal ++ w) next →
        IsSome result }
{
    let next = word_at(text, at, words)?;
    Some(SignalRead { signal, next })
}

/// A self-ID packet, by its first quadlet.
#[tactic(auto, using(crate::proofs::Chain::both))]
fn packet_at(text: &[u8], at: usize) -> Option<SignalRead>
    ensures found { IfSome result (λ r. Stands text.now at (signal_words r.signal) r.next) }
    ensures only { (quad : ℕ) (w : List ℕ) (next : ℕ) →
        Stands text.now at (signal_words (Signal.Packet quad) ++ w) next → IsSome result }
{
    let behind = word_at(text, at, b" packet ")?;
    let quad = quad_at(text, behind)?;
    Some(SignalRead {
        signal: Signal::Packet(quad.value),
        next: quad.next,
    })
}

/// The signal whose words stand at a place.
fn signal_at(text: &[u8], at: usize) -> Option<SignalRead>
    ensures found { IfSome result (λ r. Stands text.now at (signal_words r.signal) r.next) }
    ensures only { (signal : Signal) (w : List ℕ) (next : ℕ) →
        Stands text.now at (signal_words signal ++ w) next →
        IsSomeAnd result (λ r. Stands text.now r.next w next) }
{
    if let Some(found) = this_signal_at(text, at, b" BUS_RESET", Signal::Reset) {
        return Some(found);
    }
    if let Some(found) = this_signal_at(text, at, b" IDLE", Signal::Idle) {
        return Some(found);
    }
    if let Some(found) = this_signal_at(text, at, b" TX_PARENT_NOTIFY", Signal::Parent) {
        return Some(found);
    }
    if let Some(found) = this_signal_at(text, at, b" TX_CHILD_NOTIFY", Signal::Child) {
        return Some(found);
    }
    if let Some(found) = this_signal_at(text, at, b" TX_GRANT", Signal::Grant) {
        return Some(found);
    }
    if let Some(found) = this_signal_at(text, at, b" TX_IDENT_DONE", Signal::Done) {
        return Some(found);
    }
    packet_at(text, at)
}

/// A signal that is sent.
#[tactic(auto, using(crate::proofs::Chain::both))]
pub(crate) fn sends_at(text: &[u8], at: usize) -> Option<WhatRead>
    ensures found { IfSome result (λ r. IsWhatAt text.now at r.what r.next) }
    ensures only { (node : Part) (port : ℕ) (signal : Signal) (next : ℕ) →
        IsWhatAt text.now at (What.Sends node port signal) next → port < 4294967296 →
        IsSome result }
{
    let port = port_at(text, at)?;
    let behind = word_at(text, port.next, b" sends")?;
    let signal = signal_at(text, behind)?;
    let next = word_at(text, signal.next, b"\n")?;
    let what = What::Sends {
        node: port.name,
        port: port.port,
        signal: signal.signal,
    };
    Some(WhatRead { what, next })
}

//! The lines of acts and holds.
ghost use Rattle.std.specs.Prelude.{ℕ, ◌<◌, Option, IfSome, IsSome};
ghost use Rattle.trace_event.specs.declared.event.Part.{Part};
ghost use Rattle.trace_event.specs.Event.{IsShort, IsWhatAt};

use crate::event::What;
use crate::line::WhatRead;
use crate::words::{choice_at, end_at, name_at, number_at, word_at};

/// A cable that is plugged.
#[tactic(auto, using(crate::proofs::Chain::both))]
pub(crate) fn plug_at(text: &[u8], at: usize) -> Option<WhatRead>
    ensures found { IfSome result (λ r. IsWhatAt text.now at r.what r.next) }
    ensures only { (a b : Part) (m n next : ℕ) →
        IsWhatAt text.now at (What.Plug a m b n) next → m < 4294967296 → n < 4294967296 →
        IsSome result }
{
    let first = word_at(text, at, b" plug")?;
    let a = end_at(text, first)?;
    let b = end_at(text, a.next)?;
    let next = word_at(text, b.next, b"\n")?;
    let what = What::Plug {
        a: a.name,
        a_port: a.port,
        b: b.name,
        b_port: b.port,
    };
    Some(WhatRead { what, next })
}

/// A cable that is pulled.
#[tactic(auto, using(crate::proofs::Chain::both))]
pub(crate) fn pull_at(text: &[u8], at: usize) -> Option<WhatRead>
    ensures found { IfSome result (λ r. IsWhatAt text.now at r.what r.next) }
    ensures only { (name : Part) (port next : ℕ) →
        IsWhatAt text.now at (What.Pull name port) next → port < 4294967296 → IsSome result }
{
    let first = word_at(text, at, b" pull")?;
    let end = end_at(text, first)?;
    let next = word_at(text, end.next, b"\n")?;
    let what = What::Pull {
        name: end.name,
        port: end.port,
    };
    Some(WhatRead { what, next })
}

/// A node that is made to reset the bus.
#[tactic(auto, using(crate::proofs::Chain::both))]
pub(crate) fn reset_at(text: &[u8], at: usize) -> Option<WhatRead>
    ensures found { IfSome result (λ r. IsWhatAt text.now at r.what r.next) }
    ensures only { (name : Part) (next : ℕ) →
        IsWhatAt text.now at (What.Reset name) next → IsSome result }
{
    let first = word_at(text, at, b" reset")?;
    let name = name_at(text, first)?;
    let next = word_at(text, name.next, b"\n")?;
    let what = What::Reset { name: name.name };
    Some(WhatRead { what, next })
}

/// A port that is held.
#[tactic(auto, using(crate::proofs::Chain::both))]
pub(crate) fn hold_at(text: &[u8], at: usize) -> Option<WhatRead>
    ensures found { IfSome result (λ r. IsWhatAt text.now at r.what r.next) }
    ensures only { (name : Part) (port turns next : ℕ) →
        IsWhatAt text.now at (What.Hold name port turns) next → port < 4294967296 →
        turns < 4294967296 → IsSome result }
{
    let first = word_at(text, at, b" hold")?;
    let end = end_at(text, first)?;
    let turns = number_at(text, end.next, b" ")?;
    let next = word_at(text, turns.next, b"\n")?;
    let what = What::Hold {
        name: end.name,
        port: end.port,
        turns: turns.value,
    };
    Some(WhatRead { what, next })
}

/// A PHY configuration packet that is sent.
#[tactic(auto, using(crate::proofs::Chain::both))]
pub(crate) fn config_at(text: &[u8], at: usize) -> Option<WhatRead>
    ensures found { IfSome result (λ r. IsWhatAt text.now at r.what r.next) }
    ensures only { (name : Part) (root gap : Option ℕ) (next : ℕ) →
        IsWhatAt text.now at (What.Config name root gap) next → IsShort root → IsShort gap →
        IsSome result }
{
    let first = word_at(text, at, b" config")?;
    let name = name_at(text, first)?;
    let root_id = choice_at(text, name.next)?;
    let gap = choice_at(text, root_id.next)?;
    let next = word_at(text, gap.next, b"\n")?;
    let what = What::Config {
        name: name.name,
        root_id: root_id.choice,
        gap: gap.choice,
    };
    Some(WhatRead { what, next })
}

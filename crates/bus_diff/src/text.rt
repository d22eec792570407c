//! The changes as text.
ghost use Rattle.std.specs.Prelude.{◌≡◌, ◌++◌, codes, IfOk, OnOk};
ghost use Rattle.view_text.specs.Packet.{field};
ghost use Rattle.bus_diff.specs.Text.{place, place_or, pair_words, move_words, quality_word, value_words, manager_word, is_same, root_words, irm_words, change_words, change_line, changes_text};

use crate::change::{Change, Quality};
use crate::pair::Pair;
use std::alloc::Global;
use topology_stack::OutOfMemory;
use view_text::{Cable, put_field};

/// Appends where a node hangs, behind a word.
#[tactic(auto, unfolding(crate::specs::Text::place))]
fn put_place(out: &mut Vec<u8>, word: &[u8], cable: &Cable) -> Result<(), OutOfMemory>
    ensures { OnOk result (out.new.items ≡ out.old.items ++ place word.now cable.now) }
{
    out.extend_from_slice(word)?;
    put_field(out, b" port ", u64::from(cable.port))?;
    put_field(out, b" of node ", u64::from(cable.parent))?;
    put_field(out, b" on its port ", u64::from(cable.child_port))?;
    Ok(())
}

/// Appends the same, or another word where there is no cable.
fn put_place_or(
    out: &mut Vec<u8>,
    word: &[u8],
    alone: &[u8],
    cable: Option<Cable>,
) -> Result<(), OutOfMemory>
    ensures { OnOk result (out.new.items ≡ out.old.items ++ place_or word.now alone.now cable) }
{
    match cable {
        None => out.extend_from_slice(alone),
        Some(cable) => put_place(out, word, &cable),
    }
}

/// Appends the IDs of a node that is in both buses.
#[tactic(auto, unfolding(crate::specs::Text::pair_words))]
fn put_pair(out: &mut Vec<u8>, pair: Pair) -> Result<(), OutOfMemory>
    ensures { OnOk result (out.new.items ≡ out.old.items ++ pair_words pair) }
{
    put_field(out, b"node ", u64::from(pair.old))?;
    if pair.old != pair.new {
        put_field(out, b" now ", u64::from(pair.new))?;
    }
    Ok(())
}

/// Appends from where to where a node moved.
fn put_move(out: &mut Vec<u8>, from: Option<Cable>, to: Option<Cable>) -> Result<(), OutOfMemory>
    ensures { OnOk result (out.new.items ≡ out.old.items ++ move_words from to) }
{
    match (from, to) {
        (None, None) => Ok(()),
        (Some(from), None) => put_place(out, b" left", &from),
        (None, Some(to)) => put_place(out, b" joined", &to),
        (Some(from), Some(to)) => {
            put_place(out, b" moved from", &from)?;
            put_place(out, b" to", &to)?;
            Ok(())
        }
    }
}

/// The word of what a node says of itself.
fn quality_word(quality: Quality) -> &'static [u8]
    ensures { result.now ≡ quality_word quality }
{
    match quality {
        Quality::Link => b" link ",
        Quality::Gap => b" gap ",
        Quality::Speed => b" speed ",
        Quality::Contender => b" contender ",
        Quality::Power => b" power ",
    }
}

/// Appends what a node said of itself, and what it says now.
#[tactic(auto, unfolding(crate::specs::Text::value_words))]
fn put_value(out: &mut Vec<u8>, quality: Quality, from: u8, to: u8) -> Result<(), OutOfMemory>
    ensures { OnOk result (out.new.items ≡ out.old.items ++ value_words quality from to) }
{
    put_field(out, quality_word(quality), u64::from(from))?;
    put_field(out, b" now ", u64::from(to))?;
    Ok(())
}

/// Appends the isochronous resource manager, behind a word.
fn put_manager(out: &mut Vec<u8>, word: &[u8], manager: Option<u8>) -> Result<(), OutOfMemory>
    ensures { OnOk result (out.new.items ≡ out.old.items ++ manager_word word.now manager) }
{
    match manager {
        None => {
            out.extend_from_slice(word)?;
            out.extend_from_slice(b"none")?;
        }
        Some(id) => put_field(out, word, u64::from(id))?,
    }
    Ok(())
}

/// Appends that another node is the root.
#[tactic(auto, unfolding(crate::specs::Text::root_words))]
fn put_root(out: &mut Vec<u8>, from: u8, to: u8) -> Result<(), OutOfMemory>
    ensures { OnOk result (out.new.items ≡ out.old.items ++ root_words from to) }
{
    if from == to {
        return put_field(out, b"root is another node, again ", u64::from(from));
    }
    put_field(out, b"root old ", u64::from(from))?;
    put_field(out, b" new ", u64::from(to))?;
    Ok(())
}

/// Whether both are one ID.
fn is_same(from: Option<u8>, to: Option<u8>) -> bool
    ensures { result ≡ is_same from to }
{
    match (from, to) {
        (Some(from), Some(to)) => from == to,
        _ => false,
    }
}

/// Appends that another node is the isochronous resource manager.
#[tactic(auto, unfolding(crate::specs::Text::irm_words))]
fn put_irm(out: &mut Vec<u8>, from: Option<u8>, to: Option<u8>) -> Result<(), OutOfMemory>
    ensures { OnOk result (out.new.items ≡ out.old.items ++ irm_words from to) }
{
    if is_same(from, to) {
        return put_manager(out, b"irm is another node, again ", from);
    }
    put_manager(out, b"irm old ", from)?;
    put_manager(out, b" new ", to)?;
    Ok(())
}

/// Appends that a node went or came.
fn put_lone(
    out: &mut Vec<u8>,
    id: u8,
    word: &[u8],
    alone: &[u8],
    cable: Option<Cable>,
) -> Result<(), OutOfMemory>
    ensures { OnOk result (out.new.items ≡ out.old.items
        ++ (field (codes "node ") id ++ place_or word.now alone.now cable)) }
{
    put_field(out, b"node ", u64::from(id))?;
    put_place_or(out, word, alone, cable)?;
    Ok(())
}

/// Appends the words of a change.
fn put_words(out: &mut Vec<u8>, change: Change) -> Result<(), OutOfMemory>
    ensures { OnOk result (out.new.items ≡ out.old.items ++ change_words change) }
{
    match change {
        Change::Went { id, cable } => put_lone(out, id, b" went from", b" went", cable),
        Change::Came { id, cable } => put_lone(out, id, b" came to", b" came", cable),
        Change::Moved { pair, from, to } => {
            put_pair(out, pair)?;
            put_move(out, from, to)
        }
        Change::Value {
            pair,
            quality,
            from,
            to,
        } => {
            put_pair(out, pair)?;
            put_value(out, quality, from, to)
        }
        Change::Root { from, to } => put_root(out, from, to),
        Change::Manager { from, to } => put_irm(out, from, to),
    }
}

/// Appends the line of a change.
#[tactic(auto, unfolding(crate::specs::Text::change_line))]
fn put_line(out: &mut Vec<u8>, change: Change) -> Result<(), OutOfMemory>
    ensures { OnOk result (out.new.items ≡ out.old.items ++ change_line change) }
{
    put_words(out, change)?;
    out.push(b'\n')?;
    Ok(())
}

/// The text of changes: a line for each, in their order. Where there is none it is empty.
pub fn changes_text(alloc: Global, changes: &[Change]) -> Result<Vec<u8>, OutOfMemory>
    ensures { IfOk result (λ text. text.items ≡ changes_text changes.now) }
{
    let mut out = Vec::new(alloc);
    for change in changes {
        put_line(&mut out, *change)?;
    }
    Ok(out)
}

//! The text of a bus tree.
ghost use Rattle.std.specs.Prelude.{◌≡◌, ◌<◌, ◌≤◌, ◌+◌, ◌++◌, ◌⊎◌, [], ◌∷◌, length, slice_get, codes, IfOk, OnOk, decimal};
ghost use Rattle.topology_stack.specs.Tree.{walk};
ghost use Rattle.topology_stack.specs.Stored.{ends_of, all_ends};
ghost use Rattle.topology_stack.specs.Text.{attrs_text, rest_of_attrs, field, truth, signs, naming, node_line, lines_from, irm, last_line, tree_text};

use crate::links::ChildLists;
use crate::manager::elect;
use crate::name::{Name, NameList};
use crate::number::put_number;
use crate::tree::BusTree;
use quad_lanes::OutOfMemory;
use self_id::{Attrs, PortStatus, SelfId};
use std::alloc::Global;

/// How many bytes a line mostly takes at most.
const LINE: usize = 96;

/// Appends a word and a number.
#[tactic(auto, unfolding(crate::specs::Text::field))]
fn put_field(out: &mut Vec<u8>, word: &[u8], n: u64) -> Result<(), OutOfMemory>
    ensures { OnOk result (out.new.items ≡ out.old.items ++ field word.now n) }
{
    out.extend_from_slice(word)?;
    put_number(out, n)
}

/// Appends the words before the gap count.
#[inline]
#[tactic(auto, using(crate::proofs::Digits::link_words))]
fn put_link(out: &mut Vec<u8>, link: bool) -> Result<(), OutOfMemory>
    ensures { OnOk result (out.new.items
        ≡ out.old.items ++ (field (codes " link ") (truth link) ++ codes " gap ")) }
{
    if link {
        out.extend_from_slice(b" link 1 gap ")
    } else {
        out.extend_from_slice(b" link 0 gap ")
    }
}

/// The words behind the gap count, whose numbers have one digit each.
#[inline]
#[tactic(auto, using(crate::proofs::Digits::rest_is))]
fn words_of(attrs: Attrs) -> [u8; 46]
    requires speed { attrs.speed < 10 }
    requires power { attrs.power < 10 }
    ensures { result ≡ rest_of_attrs attrs }
{
    let mut words = *b" speed 0 contender 0 power 0 initiated 0 ports";
    words[7] = b'0' + attrs.speed;
    words[19] = digit(attrs.contender);
    words[27] = b'0' + attrs.power;
    words[39] = digit(attrs.initiated);
    words
}

#[inline]
fn digit(b: bool) -> u8
    ensures { result ≡ 48 + truth b }
{
    if b { b'1' } else { b'0' }
}

/// Appends the words on a node's attributes.
fn put_attrs(out: &mut Vec<u8>, id: u8, attrs: Attrs) -> Result<(), OutOfMemory>
    requires speed { attrs.speed < 10 }
    requires power { attrs.power < 10 }
    ensures { OnOk result (out.new.items ≡ out.old.items ++ attrs_text id attrs) }
{
    put_field(out, b"node ", u64::from(id))?;
    put_link(out, attrs.link)?;
    put_number(out, u64::from(attrs.gap))?;
    out.extend_from_slice(&words_of(attrs))?;
    Ok(())
}

/// Appends the sign of a slot that leads to a node with this ID.
#[inline(always)]
fn put_end(out: &mut Vec<u8>, sign: u8, id: u8) -> Result<(), OutOfMemory>
    ensures { OnOk result (out.new.items ≡ out.old.items ++ (32 ∷ sign ∷ [] ++ decimal id)) }
{
    out.push(b' ')?;
    out.push(sign)?;
    put_number(out, u64::from(id))?;
    Ok(())
}

/// Appends the sign of a slot that leads to none.
#[inline(always)]
fn put_loose(out: &mut Vec<u8>, sign: u8) -> Result<(), OutOfMemory>
    ensures { OnOk result (out.new.items ≡ out.old.items ++ 32 ∷ sign ∷ []) }
{
    out.push(b' ')?;
    out.push(sign)?;
    Ok(())
}

/// Appends a sign for each slot.
fn put_signs(
    out: &mut Vec<u8>,
    ports: &[PortStatus],
    parent: u8,
    children: &[u8],
) -> Result<(), OutOfMemory>
    ensures { OnOk result (out.new.items
        ≡ out.old.items ++ signs ports.now (ends_of parent children.now ports.now)) }
{
    let mut children = children;
    for port in ports {
        match port {
            PortStatus::Absent => put_loose(out, b'-')?,
            PortStatus::Unplugged => put_loose(out, b'.')?,
            PortStatus::Up => put_end(out, b'^', parent)?,
            PortStatus::Down => match children {
                [] => put_loose(out, b'v')?,
                [child, rest @ ..] => {
                    put_end(out, b'v', *child)?;
                    children = rest;
                }
            },
        }
    }
    Ok(())
}

/// Appends the words on the name of the node with this ID, where it has one.
fn put_name(out: &mut Vec<u8>, names: &[Name], id: usize) -> Result<(), OutOfMemory>
    ensures { OnOk result (out.new.items ≡ out.old.items ++ naming (slice_get names.now id)) }
{
    if id < names.len() {
        out.extend_from_slice(b" name ")?;
        out.extend_from_slice(names[id].as_bytes())?;
    }
    Ok(())
}

/// Appends the line of a node.
#[tactic(auto, unfolding(crate::specs::Text::node_line))]
fn put_line(
    out: &mut Vec<u8>,
    id: u8,
    node: &SelfId,
    parent: u8,
    children: &[u8],
    names: &[Name],
) -> Result<(), OutOfMemory>
    ensures { OnOk result (out.new.items ≡ out.old.items
        ++ node_line id node.now (ends_of parent children.now node.now.ports)
        (slice_get names.now id)) }
{
    put_attrs(out, id, node.attrs)?;
    put_signs(out, node.ports.as_slice(), parent, children)?;
    put_name(out, names, id as usize)?;
    out.push(b'\n')?;
    Ok(())
}

/// Appends the lines of nodes with their links.
fn put_lines(
    out: &mut Vec<u8>,
    nodes: &[SelfId],
    parents: &[u8],
    children: &ChildLists,
    names: &[Name],
) -> Result<(), OutOfMemory>
    requires few { length nodes.now ≤ 63 }
    requires parents { length parents.now ≡ length nodes.now }
    requires children { length children.now ≡ length nodes.now }
    ensures { OnOk result (out.new.items ≡ out.old.items
        ++ lines_from 0 nodes.now (all_ends nodes.now parents.now children.now) names.now) }
{
    for (i, node) in nodes.iter().enumerate() {
        put_line(out, i as u8, node, parents[i], children.of(i), names)?;
    }
    Ok(())
}

/// Appends the word on the isochronous resource manager.
#[tactic(auto, unfolding(crate::specs::Text::field))]
fn put_manager(out: &mut Vec<u8>, manager: Option<u8>) -> Result<(), OutOfMemory>
    ensures { OnOk result (out.new.items ≡ out.old.items ++ irm manager) }
{
    match manager {
        None => out.extend_from_slice(b" irm none")?,
        Some(id) => put_field(out, b" irm ", u64::from(id))?,
    }
    Ok(())
}

/// Appends the last line.
#[tactic(auto, unfolding(crate::specs::Text::last_line))]
fn put_last_line(out: &mut Vec<u8>, count: u8, manager: Option<u8>) -> Result<(), OutOfMemory>
    requires { 0 < count }
    ensures { OnOk result (out.new.items ≡ out.old.items ++ last_line count manager) }
{
    put_field(out, b"nodes ", u64::from(count))?;
    put_field(out, b" root ", u64::from(count - 1))?;
    put_manager(out, manager)?;
    out.push(b'\n')?;
    Ok(())
}

/// The text of a tree: a line for each node by rising ID, and a last line. `names` has the names of
/// the nodes by ID, or none.
///
/// `node ID link L gap G speed S contender C power P initiated I ports X X X`, with one X for each
/// slot: `-` absent, `.` unplugged, `^` and the parent's ID, `v` and the child's ID; and behind
/// them ` name NAME`. The last line is `nodes N root R irm M`, where M may be `none`.
pub fn tree_text(alloc: Global, tree: &BusTree, names: &NameList) -> Result<Vec<u8>, OutOfMemory>
    requires { (names.now ≡ []) ⊎ (length names.now ≡ length (walk tree.now)) }
    ensures { IfOk result (λ text. text.items ≡ tree_text tree.now names.now) }
{
    let mut out = Vec::with_capacity(alloc, tree.nodes().len() * LINE + LINE)?;
    put_lines(
        &mut out,
        tree.nodes(),
        tree.parents(),
        tree.children(),
        names.as_slice(),
    )?;
    put_last_line(&mut out, tree.len(), elect(tree))?;
    Ok(out)
}

//! What is shown of a reset's list.
ghost use Rattle.std.specs.Prelude.{◌≡◌, IfOk, IsTrue, ◌↔◌, true, false, [], codes};
ghost use Rattle.std.specs.Option.{option_copied};
ghost use Rattle.reset_list.specs.Shown.{WasDrawn, WasOther, IsBody, IsTreeShown, IsListShown, IsListShort};

use crate::hear::hear;
use crate::same::is_before;
use crate::sentence::refusal_text;
use crate::texts::{node_changes, put_changes, put_initiators, put_numbers, put_refused};
use capture_reading::CaptureStop;
use log_line::Origin;
use self_id::Standard;
use std::alloc::{AllocError, Global};
use topology_stack::BusTree;
use view_text::tree_drawing;

/// How much room for the text of a reset is made at first: enough where the bus is as before.
const ROOM: usize = 256;

/// What is shown of a reset's list.
#[derive(Debug, Drop)]
pub struct ListShown {
    /// Whole lines.
    pub text: Vec<u8>,
    /// The tree that the list is heard as. `None` where it is refused.
    pub tree: Option<BusTree>,
}

fn same_text(a: &[u8], b: &[u8]) -> bool
    ensures { IsTrue result ↔ (a.now ≡ b.now) }
{
    a == b
}

/// Whether the tree of a card's reset before has this drawing.
fn was_drawn(alloc: Global, before: Option<&BusTree>, drawing: &[u8]) -> Result<bool, AllocError>
    ensures same { IfOk result (λ same.
        same ≡ true → WasDrawn (option_copied before.entry) drawing.now) }
    ensures other { IfOk result (λ same.
        same ≡ false → WasOther (option_copied before.entry) drawing.now) }
{
    match before {
        Some(old) => {
            let text = tree_drawing(alloc, old)?;
            Ok(same_text(text.as_slice(), drawing))
        }
        None => Ok(false),
    }
}

/// What is shown of a tree behind its numbers.
#[derive(Debug, Drop)]
struct BehindNumbers {
    /// The drawing of the tree, or that it is as before.
    text: Vec<u8>,
    /// What changed node by node, where it isn't as before.
    by_node: Vec<u8>,
}

/// What stands in place of a drawing that is that of the reset before.
fn as_before(alloc: Global) -> Result<BehindNumbers, AllocError>
    ensures { IfOk result (λ body.
        (body.text.items ≡ codes "as before\n") × (body.by_node.items ≡ [])) }
{
    let text = Vec::from_slice(alloc, b"as before\n")?;
    let by_node = Vec::new(alloc);
    Ok(BehindNumbers { text, by_node })
}

/// The drawing of a tree, or that it is as before.
fn body(
    alloc: Global,
    before: Option<&BusTree>,
    tree: &BusTree,
) -> Result<BehindNumbers, AllocError>
    ensures { IfOk result (λ body. IsBody (option_copied before.entry) tree.now
        body.text.items body.by_node.items) }
{
    if is_before(before, tree) {
        return as_before(alloc);
    }
    let text = tree_drawing(alloc, tree)?;
    if was_drawn(alloc, before, &text)? {
        as_before(alloc)
    } else {
        let by_node = node_changes(alloc, before, tree)?;
        Ok(BehindNumbers { text, by_node })
    }
}

/// What is shown of a tree, behind the head of its reset.
fn tree_text(
    alloc: Global,
    head: &[u8],
    before: Option<&BusTree>,
    tree: &BusTree,
) -> Result<Vec<u8>, AllocError>
    ensures { IfOk result (λ text.
        IsTreeShown head.now (option_copied before.entry) tree.now text.items) }
{
    let body = body(alloc, before, tree)?;
    let mut text = Vec::with_capacity(alloc, ROOM)?;
    text.extend_from_slice(head)?;
    put_numbers(&mut text, tree)?;
    text.extend_from_slice(&body.text)?;
    put_changes(&mut text, before, tree)?;
    text.extend_from_slice(&body.by_node)?;
    put_initiators(&mut text, tree)?;
    Ok(text)
}

/// What is shown of a reset's list by a standard, behind the head of the reset. `before` is the tree of
/// the bus at the reset before, if it is known: what is another in the list's tree is shown too. A list
/// that is refused has no tree, and what is shown of it is the line and the sentence of its fault.
pub fn show_list(
    alloc: Global,
    standard: Standard,
    origin: Origin,
    head: &[u8],
    before: Option<&BusTree>,
    list: &[u32],
) -> Result<ListShown, AllocError>
    ensures { IfOk result (λ shown. IsListShown standard origin head.now list.now
        (option_copied before.entry) shown.text.items shown.tree) }
{
    match hear(alloc, standard, origin, list) {
        Ok(tree) => {
            let text = tree_text(alloc, head, before, &tree)?;
            Ok(ListShown {
                text,
                tree: Some(tree),
            })
        }
        Err(CaptureStop::Fault(fault)) => {
            let text = refusal_text(alloc, standard, origin, head, list, fault)?;
            Ok(ListShown { text, tree: None })
        }
        Err(CaptureStop::Memory(error)) => Err(error),
    }
}

/// What is shown of a reset's list by a standard in one line, behind the head of the reset: the numbers of
/// the bus. A list that is refused has no tree, and what is shown of it is the line of its fault.
pub fn show_short(
    alloc: Global,
    standard: Standard,
    origin: Origin,
    head: &[u8],
    list: &[u32],
) -> Result<ListShown, AllocError>
    ensures { IfOk result (λ shown. IsListShort standard origin head.now list.now
        shown.text.items shown.tree) }
{
    let mut text = Vec::new(alloc);
    match hear(alloc, standard, origin, list) {
        Ok(tree) => {
            text.extend_from_slice(head)?;
            put_numbers(&mut text, &tree)?;
            Ok(ListShown {
                text,
                tree: Some(tree),
            })
        }
        Err(CaptureStop::Fault(fault)) => {
            put_refused(&mut text, head, fault)?;
            Ok(ListShown { text, tree: None })
        }
        Err(CaptureStop::Memory(error)) => Err(error),
    }
}

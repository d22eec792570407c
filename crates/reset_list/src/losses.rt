//! Which ports lost the node that hung on them, and how soon they had one again.
ghost use Rattle.std.specs.Prelude.{◌≡◌, Some, None, OnOk, map};
ghost use Rattle.std.specs.List.{position};
ghost use Rattle.std.specs.Option.{option_copied};
ghost use Rattle.reset_list.specs.Losses.{lost_cable, new_cable, is_loss, one_more_loss, lost_if, lost_by, with_times, back, back_on, back_if, back_by, unknown, losses_by};
ghost use Rattle.reset_list.specs.Update.{place_of, updated};

use crate::times::{between, shorter};
use bus_diff::{Change, compare_along};
use std::alloc::{AllocError, Global};
use topology_stack::BusTree;
use view_text::Cable;

/// At how many resets of a card a port lost the node that hung on it, and how soon it had one again. Times are in
/// microseconds, where they are known.
#[derive(Clone, Copy, Debug, PartialEq, Eq)]
pub struct Loss {
    pub card: u64,
    /// The ID of the parent, before the reset.
    pub node: u8,
    pub port: u8,
    pub count: u64,
    /// When it last lost its node, unless it has one again.
    pub lost_at: Option<u64>,
    /// The shortest time for which it had none.
    pub shortest: Option<u64>,
}

/// The cable that a change takes from the port of a parent.
fn lost_cable(change: Change) -> Option<Cable>
    ensures { result ≡ lost_cable change }
{
    match change {
        Change::Went { cable, .. } => cable,
        Change::Moved { from, .. } => from,
        Change::Came { .. } | Change::Value { .. } | Change::Root { .. } | Change::Manager { .. } =>
            None,
    }
}

/// The cable that a change brings to the port of a parent.
fn new_cable(change: Change) -> Option<Cable>
    ensures { result ≡ new_cable change }
{
    match change {
        Change::Came { cable, .. } => cable,
        Change::Moved { to, .. } => to,
        Change::Went { .. } | Change::Value { .. } | Change::Root { .. } | Change::Manager { .. } =>
            None,
    }
}

fn is_loss(card: u64, cable: Cable, loss: &Loss) -> bool
    ensures { result ≡ is_loss card cable loss.now }
{
    loss.card == card && loss.node == cable.parent && loss.port == cable.port
}

/// Where the losses of a port stand first.
fn first(losses: &[Loss], card: u64, cable: Cable) -> Option<usize>
    ensures { result ≡ position (λ l. is_loss card cable l) losses.now }
{
    losses.iter().position(|loss| is_loss(card, cable, loss))
}

/// The place of the losses of a port.
fn place(losses: &[Loss], card: u64, cable: Cable) -> Option<usize>
    ensures { result ≡ place_of (is_loss card cable) losses.now }
{
    first(losses, card, cable)
}

/// One more loss of the port from which a cable led.
fn more(loss: Loss, card: u64, cable: Cable, now: Option<u64>) -> Loss
    ensures { result ≡ one_more_loss card cable now (Some loss) }
{
    Loss {
        card,
        node: cable.parent,
        port: cable.port,
        count: loss.count.saturating_add(1),
        lost_at: now,
        shortest: loss.shortest,
    }
}

/// Counts another loss of a port, whose losses stand at this place.
fn again(losses: &mut Vec<Loss>, at: usize, card: u64, cable: Cable, now: Option<u64>)
    requires { place_of (is_loss card cable) losses.old.items ≡ Some at }
    ensures { losses.new.items
        ≡ updated (is_loss card cable) (one_more_loss card cable now) losses.old.items }
{
    losses[at] = more(losses[at], card, cable, now);
}

/// Counts the first loss of a port.
fn begin(
    losses: &mut Vec<Loss>,
    card: u64,
    cable: Cable,
    now: Option<u64>,
) -> Result<(), AllocError>
    requires { place_of (is_loss card cable) losses.old.items ≡ None }
    ensures { OnOk result (losses.new.items
        ≡ updated (is_loss card cable) (one_more_loss card cable now) losses.old.items) }
{
    losses.push(Loss {
        card,
        node: cable.parent,
        port: cable.port,
        count: 1,
        lost_at: now,
        shortest: None,
    })?;
    Ok(())
}

/// Counts a loss of the port from which a cable led.
fn count_one(
    losses: &mut Vec<Loss>,
    card: u64,
    cable: Cable,
    now: Option<u64>,
) -> Result<(), AllocError>
    ensures { OnOk result (losses.new.items
        ≡ updated (is_loss card cable) (one_more_loss card cable now) losses.old.items) }
{
    match place(losses, card, cable) {
        Some(at) => {
            again(losses, at, card, cable, now);
            Ok(())
        }
        None => begin(losses, card, cable, now),
    }
}

fn count_if(
    losses: &mut Vec<Loss>,
    card: u64,
    cable: Option<Cable>,
    now: Option<u64>,
) -> Result<(), AllocError>
    ensures { OnOk result (losses.new.items ≡ lost_if card now cable losses.old.items) }
{
    match cable {
        Some(cable) => count_one(losses, card, cable, now),
        None => Ok(()),
    }
}

fn count_all(
    losses: &mut Vec<Loss>,
    card: u64,
    now: Option<u64>,
    changes: &[Change],
) -> Result<(), AllocError>
    ensures { OnOk result (losses.new.items ≡ lost_by card now changes.now losses.old.items) }
{
    let mut rest = changes;
    while let [change, behind @ ..] = rest {
        count_if(losses, card, lost_cable(*change), now)?;
        rest = behind;
    }
    Ok(())
}

fn with_times(loss: Loss, lost_at: Option<u64>, shortest: Option<u64>) -> Loss
    ensures { result ≡ with_times lost_at shortest loss }
{
    Loss {
        card: loss.card,
        node: loss.node,
        port: loss.port,
        count: loss.count,
        lost_at,
        shortest,
    }
}

/// A port that has a node again.
fn back(loss: Loss, now: Option<u64>) -> Loss
    ensures { result ≡ back now loss }
{
    let away = between(loss.lost_at, now);
    with_times(loss, None, shorter(loss.shortest, away))
}

/// A port that has a node again, where it is the one that a cable leads from.
fn back_on(loss: Loss, card: u64, cable: Cable, now: Option<u64>) -> Loss
    ensures { result ≡ back_on card now cable loss }
{
    if is_loss(card, cable, &loss) {
        back(loss, now)
    } else {
        loss
    }
}

/// Notes that a port has a node again.
fn back_each(losses: &mut Vec<Loss>, card: u64, cable: Cable, now: Option<u64>)
    ensures { losses.new.items ≡ map (back_on card now cable) losses.old.items }
{
    for loss in losses.iter_mut() {
        *loss = back_on(*loss, card, cable, now);
    }
}

fn back_if(losses: &mut Vec<Loss>, card: u64, cable: Option<Cable>, now: Option<u64>)
    ensures { losses.new.items ≡ back_if card now cable losses.old.items }
{
    match cable {
        Some(cable) => back_each(losses, card, cable, now),
        None => {}
    }
}

fn back_all(losses: &mut Vec<Loss>, card: u64, now: Option<u64>, changes: &[Change])
    ensures { losses.new.items ≡ back_by card now changes.now losses.old.items }
{
    let mut rest = changes;
    while let [change, behind @ ..] = rest {
        back_if(losses, card, new_cable(*change), now);
        rest = behind;
    }
}

/// Of this card it isn't known when the port lost its node.
fn unknown(loss: Loss, card: u64) -> Loss
    ensures { result ≡ unknown card loss }
{
    if loss.card == card {
        with_times(loss, None, loss.shortest)
    } else {
        loss
    }
}

/// Forgets when ports of a card lost their nodes.
fn forget_times(losses: &mut Vec<Loss>, card: u64)
    ensures { losses.new.items ≡ map (unknown card) losses.old.items }
{
    for loss in losses.iter_mut() {
        *loss = unknown(*loss, card);
    }
}

/// Notes which ports have a node again, and counts those that lost theirs.
fn count_changes(
    losses: &mut Vec<Loss>,
    card: u64,
    now: Option<u64>,
    changes: &[Change],
) -> Result<(), AllocError>
    ensures { OnOk result (losses.new.items
        ≡ lost_by card now changes.now (back_by card now changes.now losses.old.items)) }
{
    back_all(losses, card, now, changes);
    count_all(losses, card, now, changes)
}

/// Counts the losses of ports at a reset of this card, which was at this time, if the tree before it and its own are
/// known. If that before isn't, it isn't known any more when ports lost their nodes.
pub fn count_losses(
    alloc: Global,
    losses: &mut Vec<Loss>,
    card: u64,
    now: Option<u64>,
    old: Option<&BusTree>,
    new: Option<&BusTree>,
) -> Result<(), AllocError>
    ensures { OnOk result (losses.new.items
        ≡ losses_by card now (option_copied old.entry) (option_copied new.entry) losses.old.items) }
{
    match (old, new) {
        (Some(old), Some(new)) => {
            let found = compare_along(alloc, old, new)?;
            count_changes(losses, card, now, &found.changes)
        }
        (Some(_), None) => Ok(()),
        (None, _) => {
            forget_times(losses, card);
            Ok(())
        }
    }
}

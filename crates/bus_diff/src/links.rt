//! What is looked at of a bus where its nodes are matched with those of another.

use crate::matching::port_count;
use self_id::Attrs;
use std::alloc::Global;
use topology_stack::{BusTree, OutOfMemory};
use view_text::Cable;

/// The ID that names no node.
pub(crate) const NOBODY: u8 = 63;

/// The most ports of a node.
pub(crate) const PORTS: u8 = 27;

/// What a node says of itself that stays the same where it is plugged elsewhere.
#[derive(Clone, Copy)]
struct Mark {
    ports: usize,
    attrs: Attrs,
}

/// The nodes of a bus, and where their ports lead.
#[derive(Drop)]
pub(crate) struct Links {
    marks: Vec<Mark>,
    /// The ID at the other end of each port: that of port p of node i at 32i + p.
    far: Vec<u8>,
}

/// Where the end of this port stands.
fn place_of(id: u8, port: u8) -> usize {
    32 * usize::from(id) + usize::from(port)
}

/// Lets a port lead to the node with this ID.
fn lead(far: &mut Vec<u8>, id: u8, port: u8, to: u8) {
    let place = place_of(id, port);
    if place < far.len() {
        far[place] = to;
    }
}

impl Links {
    /// The links of a bus with these cables.
    pub(crate) fn of(
        alloc: Global,
        tree: &BusTree,
        cables: &[Cable],
    ) -> Result<Links, OutOfMemory> {
        let mut marks = Vec::new(alloc);
        for node in tree.nodes() {
            marks.push(Mark {
                ports: port_count(node),
                attrs: node.attrs,
            })?;
        }
        let mut far = vec![in alloc; NOBODY; 2048]?;
        for cable in cables {
            lead(&mut far, cable.parent, cable.port, cable.child);
            lead(&mut far, cable.child, cable.child_port, cable.parent);
        }
        Ok(Links { marks, far })
    }

    /// The ID at the other end of this port, or `NOBODY`.
    pub(crate) fn far(&self, id: u8, port: u8) -> u8 {
        self.far.get(place_of(id, port)).copied().unwrap_or(NOBODY)
    }

    /// What is known of the node with this ID.
    fn mark(&self, id: u8) -> Option<Mark> {
        self.marks.get(usize::from(id)).copied()
    }
}

/// How like each other two nodes have to be.
#[derive(Clone, Copy, PartialEq, Eq)]
pub(crate) enum Likeness {
    /// As many ports, and the same speed and power class, which a node keeps.
    Alike,
    /// As many ports.
    Fit,
}

/// What the attributes count for that two nodes share.
fn shared(one: Attrs, other: Attrs) -> u32 {
    let mut points = 0;
    if one.speed == other.speed {
        points += 4;
    }
    if one.power == other.power {
        points += 4;
    }
    if one.contender == other.contender {
        points += 2;
    }
    if one.link == other.link {
        points += 2;
    }
    if one.gap == other.gap {
        points += 1;
    }
    points
}

/// How many points a node of one bus and a node of the other make. `None` where they are less like each other
/// than they have to be, or where one of them isn't there.
pub(crate) fn points(
    old: &Links,
    new: &Links,
    likeness: Likeness,
    old_id: u8,
    new_id: u8,
) -> Option<u32> {
    let one = old.mark(old_id)?;
    let other = new.mark(new_id)?;
    let keeps = one.attrs.speed == other.attrs.speed && one.attrs.power == other.attrs.power;
    if one.ports != other.ports || (likeness == Likeness::Alike && !keeps) {
        return None;
    }
    Some(shared(one.attrs, other.attrs).saturating_add(32))
}

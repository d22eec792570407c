//! The nodes of made buses.
ghost use Rattle.std.specs.Prelude.{◌≡◌, [], ◌≤◌, ◌<◌, IfOk, OnOk};
ghost use Rattle.self_id.specs.Node.{FitBits};
ghost use Rattle.flawed_capture.specs.Draws.{behind};
ghost use Rattle.flawed_capture.specs.SeededNode.{status, without, first_slots, most_slots, width, slots_of, attrs_by, shown, group_by};

use crate::words::next_word;
use rand_pcg::Pcg32;
use self_id::{Attrs, PortStatus, QuadGroup, SelfId, Standard, count_up, slot_count, write_group};
use std::alloc::Global;
use topology_stack::OutOfMemory;

/// The links of a node that no slot shows yet.
#[derive(Clone, Copy, Debug)]
pub(crate) struct Links {
    pub(crate) up: bool,
    pub(crate) down: usize,
}

impl Links {
    /// The status of the next slot, where so many of the node's ports are left, this one among them. Each
    /// link is as likely as another.
    #[tactic(auto, unfolding(crate::specs::SeededNode::status))]
    fn next_status(&mut self, left: usize, word: u32) -> PortStatus
        ensures status { result ≡ status left self.old word }
        ensures links { self.new ≡ without (status left self.old word) self.old }
    {
        if left == 0 {
            return PortStatus::Absent;
        }
        let place = word as usize % left;
        if place < self.down {
            self.down -= 1;
            PortStatus::Down
        } else if self.up && place == self.down {
            self.up = false;
            PortStatus::Up
        } else {
            PortStatus::Unplugged
        }
    }
}

/// The most slots that a node shows by a standard: three, and eight, or five, for each further packet.
pub(crate) fn most_slots(standard: Standard) -> usize
    ensures value { result ≡ most_slots standard }
    ensures least { 16 ≤ result }
    ensures most { result ≤ 27 }
{
    match standard {
        Standard::Ieee1995 => 27,
        Standard::Ieee2000 => 16,
    }
}

/// How many slots a node with so many ports shows by a standard.
fn width_of(standard: Standard, ports: usize) -> usize
    ensures { result ≡ width standard ports }
{
    match standard {
        Standard::Ieee2000 => slot_count(ports),
        Standard::Ieee1995 if ports <= 11 => slot_count(ports),
        Standard::Ieee1995 if ports <= 19 => 19,
        Standard::Ieee1995 => 27,
    }
}

/// The first slots of a node with so many ports, which has these links.
fn first_slots(
    alloc: Global,
    ports: usize,
    start: Links,
    count: usize,
    words: &mut Pcg32,
) -> Result<Vec<PortStatus>, OutOfMemory>
    ensures slots { IfOk result (λ slots.
        slots.items ≡ (first_slots ports start words.old count).slots) }
    ensures words { OnOk result (words.new ≡ (first_slots ports start words.old count).words) }
{
    let mut links = start;
    let mut slots = Vec::new(alloc);
    for slot in 0..count {
        let status = links.next_status(ports.saturating_sub(slot), next_word(words));
        slots.push(status)?;
    }
    Ok(slots)
}

/// The slots of a node with so many children, up to three of whose ports have no cable.
#[tactic(auto, unfolding(crate::specs::SeededNode::slots_of))]
fn slots_of(
    alloc: Global,
    standard: Standard,
    children: usize,
    is_root: bool,
    words: &mut Pcg32,
) -> Result<Vec<PortStatus>, OutOfMemory>
    requires { children ≤ 62 }
    ensures slots { IfOk result (λ slots.
        slots.items ≡ (slots_of standard children is_root words.old).slots) }
    ensures words { OnOk result
        (words.new ≡ (slots_of standard children is_root words.old).words) }
{
    let links = Links {
        up: !is_root,
        down: children,
    };
    let parents = if is_root { 0 } else { 1 };
    let spare = next_word(words) as usize % 4;
    let ports = (children + parents + spare).min(most_slots(standard));
    first_slots(alloc, ports, links, width_of(standard, ports), words)
}

/// The attributes of a node, as the bits of a word say, with this gap count.
fn attrs_of(gap: u8, word: u32) -> Attrs
    requires { gap < 64 }
    ensures value { result ≡ attrs_by gap word }
    ensures fit { FitBits result }
{
    Attrs {
        link: word % 2 == 1,
        gap,
        speed: (word / 2 % 4) as u8,
        delay: 0,
        contender: word / 8 % 2 == 1,
        power: (word / 16 % 8) as u8,
        initiated: word / 128 % 2 == 1,
    }
}

/// Writes the group of the node with these attributes and slots, unless it is none that packets show.
#[tactic(auto, unfolding(crate::specs::SeededNode::shown))]
fn put_node(attrs: Attrs, slots: &[PortStatus], id: u8, group: &mut QuadGroup)
    requires fit { FitBits attrs }
    requires id { id ≤ 62 }
    requires empty { group.old ≡ [] }
    ensures { group.new ≡ shown attrs slots.now id }
{
    let is_shown = matches!(slots.len(), 3 | 11 | 16 | 19 | 27);
    if is_shown && count_up(slots) <= 1 {
        write_group(&SelfId::new(attrs, slots), id, group);
    }
}

/// The group of the node with this ID, 0 to 62, which has so many children. Its other slots and its
/// attributes come of the words.
#[tactic(auto, unfolding(crate::specs::SeededNode::group_by))]
pub(crate) fn made_group(
    alloc: Global,
    standard: Standard,
    gap: u8,
    id: u8,
    children: usize,
    is_root: bool,
    words: &mut Pcg32,
) -> Result<QuadGroup, OutOfMemory>
    requires gap { gap < 64 }
    requires id { id ≤ 62 }
    requires children { children ≤ 62 }
    ensures group { IfOk result (λ group.
        group ≡ group_by gap id (slots_of standard children is_root words.old)) }
    ensures words { OnOk result
        (words.new ≡ behind (slots_of standard children is_root words.old).words) }
{
    let slots = slots_of(alloc, standard, children, is_root, words)?;
    let attrs = attrs_of(gap, next_word(words));
    let mut group = QuadGroup::new();
    put_node(attrs, &slots, id, &mut group);
    Ok(group)
}

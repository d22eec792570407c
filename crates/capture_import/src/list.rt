//! How the self-ID packets of a bus stand among quadlets.
ghost use Rattle.std.specs.Prelude.{◌≡◌, ◌≤◌, ◌*◌, ◌<◌, false, length, drop, position, IfOk, IfSome};
ghost use Rattle.capture_import.specs.Answer.{IfFault};
ghost use Rattle.capture_import.specs.List.{begins_pair, begins_map, layout_of, good_firsts, is_up, leads_up, up_to_root, HasPackets, NamesList, is_other, first_other, IsBadList};
ghost use Rattle.capture_import.specs.declared.taken.Layout.{Layout};

use crate::fault::{FaultKind, ImportStop, fault};
use crate::image::map_list;
use crate::order::{is_packet, order_of, order_of_buffer, turned_list};
use crate::taken::{Layout, Order};
use quad_lanes::QuadList;
use std::alloc::Global;
use topology_stack::OutOfMemory;

/// Whether a quadlet and its inverse stand first.
fn begins_pair(quads: &[u32]) -> bool
    ensures { result ≡ begins_pair quads.now }
{
    match quads {
        [a, b, ..] => *b == !*a,
        _ => false,
    }
}

/// The quadlets behind the first.
fn behind_first(quads: &[u32]) -> &[u32]
    ensures value { result.now ≡ drop 1 quads.now }
    ensures few { length result.now ≤ length quads.now }
{
    match quads {
        [_, behind @ ..] => behind,
        [] => quads,
    }
}

/// The same behind the first quadlet.
fn begins_buffer(quads: &[u32]) -> bool
    ensures { result ≡ begins_pair (drop 1 quads.now) }
{
    begins_pair(behind_first(quads))
}

/// Whether the image of a topology map stands first, by its lengths.
fn begins_map(quads: &[u32]) -> bool
    ensures { result ≡ begins_map quads.now }
{
    if quads.len() < 3 {
        return false;
    }
    let length = quads[0] / 0x1_0000;
    length as usize + 1 <= quads.len() && quads[2] % 0x1_0000 + 2 == length
}

/// How packets stand among quadlets.
pub(crate) fn layout_of(quads: &[u32]) -> Layout
    ensures { result ≡ layout_of quads.now }
{
    if begins_pair(quads) {
        Layout::Pairs
    } else if begins_buffer(quads) {
        Layout::Buffer
    } else if begins_map(quads) {
        Layout::Map
    } else {
        Layout::Firsts
    }
}

/// The first quadlets of the pairs before the first that has no inverse behind it.
fn good_firsts(alloc: Global, quads: &[u32]) -> Result<QuadList, OutOfMemory>
    ensures firsts { IfOk result (λ list. list ≡ good_firsts quads.now) }
    ensures few { IfOk result (λ list. 2 * length list ≤ length quads.now) }
{
    let mut list = QuadList::new(alloc);
    let mut rest = quads;
    while let [a, b, behind @ ..] = rest {
        if *b != !*a {
            return Ok(list);
        }
        list.push(*a)?;
        rest = behind;
    }
    Ok(list)
}

/// Whether the two bits above this one are 10.
fn is_up(bit: u32, q: u32) -> bool
    requires { 1 ≤ bit }
    ensures { result ≡ is_up bit q }
{
    q / bit % 4 == 2
}

/// Whether a port of a packet leads to the parent.
fn leads_up(q: u32) -> bool
    ensures { result ≡ leads_up q }
{
    if q / 0x80_0000 % 2 == 0 {
        is_up(64, q) || is_up(16, q) || is_up(4, q)
    } else {
        is_up(65_536, q)
            || is_up(16_384, q)
            || is_up(4_096, q)
            || is_up(1_024, q)
            || is_up(256, q)
            || is_up(64, q)
            || is_up(16, q)
            || is_up(4, q)
    }
}

/// The packets up to those of the root.
fn up_to_root(alloc: Global, quads: &[u32]) -> Result<QuadList, OutOfMemory>
    ensures { IfOk result (λ list. list ≡ up_to_root false quads.now) }
{
    let mut list = QuadList::new(alloc);
    let mut up = false;
    let mut rest = quads;
    while let [q, behind @ ..] = rest {
        list.push(*q)?;
        up = up || leads_up(*q);
        if *q % 2 == 0 {
            if !up {
                return Ok(list);
            }
            up = false;
        }
        rest = behind;
    }
    Ok(list)
}

/// Whether a quadlet is no packet with its highest byte first.
fn is_other(q: u32) -> bool
    ensures { result ≡ is_other q }
{
    !is_packet(Order::Big, q)
}

/// The place of the first such.
fn place_of_other(list: &[u32]) -> Option<usize>
    ensures value { result ≡ position is_other list.now }
    ensures within { IfSome result (λ place. place < length list.now) }
{
    list.iter().position(|q| is_other(*q))
}

/// The same, or the first place.
fn first_other(list: &[u32]) -> usize
    ensures value { result ≡ first_other list.now }
    ensures within { result ≤ length list.now }
{
    match place_of_other(list) {
        Some(place) => place,
        None => 0,
    }
}

/// The packets of pairs.
fn pairs_list(alloc: Global, quads: &[u32]) -> Result<(QuadList, Order), ImportStop>
    ensures found { IfOk result (λ found.
        HasPackets Layout.Pairs found.1 quads.now found.0) }
    ensures refused { IfFault result (λ f. IsBadList Layout.Pairs quads.now f) }
{
    let firsts = good_firsts(alloc, quads)?;
    let list = firsts.as_slice();
    if 2 * list.len() != quads.len() {
        return Err(fault(2 * list.len() + 1, FaultKind::BadInverse));
    }
    match order_of(list) {
        Some(order) => Ok((turned_list(alloc, order, list)?, order)),
        None => Err(fault(2 * first_other(list), FaultKind::NotSelfId)),
    }
}

/// Packets that stand alone.
fn firsts_list(alloc: Global, quads: &[u32]) -> Result<(QuadList, Order), ImportStop>
    ensures found { IfOk result (λ found.
        HasPackets Layout.Firsts found.1 quads.now found.0) }
    ensures refused { IfFault result (λ f. IsBadList Layout.Firsts quads.now f) }
{
    match order_of(quads) {
        Some(order) => Ok((turned_list(alloc, order, quads)?, order)),
        None => Err(fault(first_other(quads), FaultKind::NotSelfId)),
    }
}

/// The packets of the pairs behind the first quadlet of a buffer, up to those of the root.
fn buffer_list(alloc: Global, quads: &[u32]) -> Result<(QuadList, Order), ImportStop>
    ensures found { IfOk result (λ found.
        HasPackets Layout.Buffer found.1 quads.now found.0) }
    ensures refused { IfFault result (λ f. IsBadList Layout.Buffer quads.now f) }
{
    let firsts = good_firsts(alloc, behind_first(quads))?;
    let list = firsts.as_slice();
    match order_of_buffer(list) {
        Some(order) => {
            let packets = turned_list(alloc, order, list)?;
            Ok((up_to_root(alloc, packets.as_slice())?, order))
        }
        None => Err(fault(2 * first_other(list) + 1, FaultKind::NotSelfId)),
    }
}

/// The packets that quadlets name which stand so, and the order of their bytes; or why they name none.
#[tactic(auto, using(crate::proofs::Layouts::map_begins))]
pub(crate) fn named_list(
    alloc: Global,
    layout: Layout,
    quads: &[u32],
) -> Result<(QuadList, Order), ImportStop>
    requires { layout ≡ layout_of quads.now }
    ensures found { IfOk result (λ found. NamesList layout found.1 quads.now found.0) }
    ensures refused { IfFault result (λ f. IsBadList layout quads.now f) }
{
    match layout {
        Layout::Pairs => pairs_list(alloc, quads),
        Layout::Firsts => firsts_list(alloc, quads),
        Layout::Buffer => buffer_list(alloc, quads),
        Layout::Map => map_list(alloc, quads),
    }
}

//! The orders in which the bytes of quadlets may stand.
ghost use Rattle.std.specs.Prelude.{◌≡◌, ◌+◌, ◌<◌, ◌/◌, ◌%◌, ◌^◌, map, IfOk};
ghost use Rattle.quad_lanes.specs.Pairs.{big_endian};
ghost use Rattle.capture_import.specs.Order.{ordered, turned, top, is_packet, are_packets, goes_up, begins_at_0, is_list, order_of, order_of_buffer};

use crate::taken::Order;
use quad_lanes::QuadList;
use std::alloc::Global;
use topology_stack::OutOfMemory;

/// The quadlet of four bytes, the first the highest.
fn big_endian(a: u8, b: u8, c: u8, d: u8) -> u32
    ensures { result ≡ big_endian a b c d }
{
    u32::from(a) * 0x100_0000 + u32::from(b) * 0x1_0000 + u32::from(c) * 0x100 + u32::from(d)
}

/// The quadlet of four bytes that stand in an order.
fn ordered(order: Order, a: u8, b: u8, c: u8, d: u8) -> u32
    ensures { result ≡ ordered order a b c d }
{
    match order {
        Order::Big => big_endian(a, b, c, d),
        Order::Little => big_endian(d, c, b, a),
        Order::Halves => big_endian(c, d, a, b),
        Order::HalfBytes => big_endian(b, a, d, c),
    }
}

/// The quadlet of the bytes of another one, which was read with the highest byte first.
pub(crate) fn turned(order: Order, q: u32) -> u32
    ensures { result ≡ turned order q }
{
    let a = (q / 0x100_0000) as u8;
    let b = (q / 0x1_0000 % 0x100) as u8;
    let c = (q / 0x100 % 0x100) as u8;
    let d = (q % 0x100) as u8;
    ordered(order, a, b, c, d)
}

/// The highest byte of a quadlet.
fn top(order: Order, q: u32) -> u32
    ensures { result ≡ top order q }
{
    turned(order, q) / 0x100_0000
}

/// Whether it begins with the bits 10.
pub(crate) fn is_packet(order: Order, q: u32) -> bool
    ensures { result ≡ is_packet order q }
{
    top(order, q) / 64 == 2
}

fn are_packets(order: Order, list: &[u32]) -> bool
    ensures { result ≡ are_packets order list.now }
{
    list.iter().all(|q| is_packet(order, *q))
}

/// Whether each highest byte is that before it or one more.
fn goes_up(order: Order, first: u32, list: &[u32]) -> bool
    requires { first < 256 }
    ensures { result ≡ goes_up order first list.now }
{
    let mut before = first;
    let mut rest = list;
    while let [q, behind @ ..] = rest {
        let here = top(order, *q);
        if here != before && here != before + 1 {
            return false;
        }
        before = here;
        rest = behind;
    }
    true
}

/// Whether the first packet is one of node 0.
fn begins_at_0(order: Order, list: &[u32]) -> bool
    ensures { result ≡ begins_at_0 order list.now }
{
    match list {
        [q, ..] => top(order, *q) == 128,
        [] => false,
    }
}

/// Whether the packets are a list whose IDs go up by one at most.
fn is_list(order: Order, list: &[u32]) -> bool
    ensures { result ≡ is_list order list.now }
{
    begins_at_0(order, list) && are_packets(order, list) && goes_up(order, 128, list)
}

/// The order of the bytes of packets.
pub(crate) fn order_of(list: &[u32]) -> Option<Order>
    ensures { result ≡ order_of list.now }
{
    if is_list(Order::Big, list) {
        Some(Order::Big)
    } else if is_list(Order::Little, list) {
        Some(Order::Little)
    } else if is_list(Order::Halves, list) {
        Some(Order::Halves)
    } else if is_list(Order::HalfBytes, list) {
        Some(Order::HalfBytes)
    } else if are_packets(Order::Big, list) {
        Some(Order::Big)
    } else if are_packets(Order::Little, list) {
        Some(Order::Little)
    } else if are_packets(Order::Halves, list) {
        Some(Order::Halves)
    } else if are_packets(Order::HalfBytes, list) {
        Some(Order::HalfBytes)
    } else {
        None
    }
}

/// The order of the bytes of packets in a controller's buffer.
pub(crate) fn order_of_buffer(list: &[u32]) -> Option<Order>
    ensures { result ≡ order_of_buffer list.now }
{
    if is_list(Order::Little, list) {
        Some(Order::Little)
    } else if is_list(Order::Big, list) {
        Some(Order::Big)
    } else if begins_at_0(Order::Little, list) {
        Some(Order::Little)
    } else if begins_at_0(Order::Big, list) {
        Some(Order::Big)
    } else {
        None
    }
}

/// Quadlets whose bytes were turned.
pub(crate) fn turned_list(
    alloc: Global,
    order: Order,
    quads: &[u32],
) -> Result<QuadList, OutOfMemory>
    ensures { IfOk result (λ list. list ≡ map (turned order) quads.now) }
{
    let mut list = QuadList::new(alloc);
    let mut rest = quads;
    while let [q, behind @ ..] = rest {
        list.push(turned(order, *q))?;
        rest = behind;
    }
    Ok(list)
}

//! The slots of a node: how many there are, and how many of them lead where.
ghost use Rattle.std.specs.Prelude.{◌≡◌, ◌≤◌, length};
ghost use Rattle.self_id.specs.Node.{ups, downs};
ghost use Rattle.self_id.specs.Slots.{slot_count};

use crate::node::PortStatus;

/// How many slots a node with so many ports shows: 3, 11 or 16 (IEEE 1394a-2000, self-ID packets).
pub fn slot_count(ports: usize) -> usize
    ensures { result ≡ slot_count ports }
{
    if ports <= 3 {
        3
    } else if ports <= 11 {
        11
    } else {
        16
    }
}

/// How many slots lead to the parent.
#[inline]
pub fn count_up(slots: &[PortStatus]) -> usize
    ensures value { result ≡ ups slots.now }
    ensures few { result ≤ length slots.now }
{
    let mut count = 0;
    for slot in slots {
        if matches!(slot, PortStatus::Up) {
            count += 1;
        }
    }
    count
}

/// How many slots lead to a child.
#[inline]
pub fn count_down(slots: &[PortStatus]) -> usize
    ensures value { result ≡ downs slots.now }
    ensures few { result ≤ length slots.now }
{
    let mut count = 0;
    for slot in slots {
        if matches!(slot, PortStatus::Down) {
            count += 1;
        }
    }
    count
}

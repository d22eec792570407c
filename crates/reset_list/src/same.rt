//! Whether a bus shows itself as it did at the reset before.
ghost use Rattle.std.specs.Prelude.{◌≡◌, true, Some};
ghost use Rattle.std.specs.Option.{option_copied};

use self_id::{Attrs, PortStatus, SelfId};
use topology_stack::BusTree;

fn same_status(a: PortStatus, b: PortStatus) -> bool
    ensures { result ≡ true → a ≡ b }
{
    match (a, b) {
        (PortStatus::Absent, PortStatus::Absent)
        | (PortStatus::Unplugged, PortStatus::Unplugged)
        | (PortStatus::Up, PortStatus::Up)
        | (PortStatus::Down, PortStatus::Down) => true,
        _ => false,
    }
}

fn same_ports(a: &[PortStatus], b: &[PortStatus]) -> bool
    ensures { result ≡ true → a.now ≡ b.now }
{
    let (mut one, mut other) = (a, b);
    while let ([x, behind @ ..], [y, rest @ ..]) = (one, other) {
        if !same_status(*x, *y) {
            return false;
        }
        one = behind;
        other = rest;
    }
    one.is_empty() && other.is_empty()
}

fn same_attrs(a: Attrs, b: Attrs) -> bool
    ensures { result ≡ true → a ≡ b }
{
    a.link == b.link
        && a.gap == b.gap
        && a.speed == b.speed
        && a.delay == b.delay
        && a.contender == b.contender
        && a.power == b.power
        && a.initiated == b.initiated
}

fn same_node(a: &SelfId, b: &SelfId) -> bool
    ensures { result ≡ true → a.now ≡ b.now }
{
    same_attrs(a.attrs, b.attrs)
        && same_ports(a.ports.as_slice(), b.ports.as_slice())
        && a.kept_a == b.kept_a
        && a.kept_b == b.kept_b
}

fn same_nodes(a: &[SelfId], b: &[SelfId]) -> bool
    ensures { result ≡ true → a.now ≡ b.now }
{
    let (mut one, mut other) = (a, b);
    while let ([x, behind @ ..], [y, rest @ ..]) = (one, other) {
        if !same_node(x, y) {
            return false;
        }
        one = behind;
        other = rest;
    }
    one.is_empty() && other.is_empty()
}

fn same_tree(a: &BusTree, b: &BusTree) -> bool
    ensures { result ≡ true → a.now ≡ b.now }
{
    let count = a.len();
    if count != b.len() {
        return false;
    }
    same_nodes(a.nodes(), b.nodes())
}

/// Whether this is the tree before, if there was one. Its drawing then is as before without being drawn.
pub(crate) fn is_before(before: Option<&BusTree>, tree: &BusTree) -> bool
    ensures { result ≡ true → option_copied before.entry ≡ Some tree.now }
{
    match before {
        Some(old) => same_tree(old, tree),
        None => false,
    }
}

//! Sets of ports.

use port_state::PortSet;

#[test]
fn set_of_ports(rt: HostRuntime) {
    let mut ports = PortSet::one(3);
    ports.insert(15);
    ports.insert(16);
    assert!(rt; ports.has(3) && ports.has(15) && !ports.has(16) && !ports.has(4));
    ports.remove(3);
    assert!(rt; ports == PortSet::one(15) && ports.without(15).is_none());
}

#[test]
fn two_sets_of_ports(rt: HostRuntime) {
    let low = PortSet::one(0).union(PortSet::one(1));
    let odd = PortSet::one(1).union(PortSet::one(3));
    assert!(rt; low.both(odd) == PortSet::one(1));
    assert!(rt; low.minus(odd) == PortSet::one(0));
    assert!(rt; low.minus(low) == PortSet::none());
}

//! The group of a node that is made.

use self_id::{Attrs, PortStatus, QuadGroup, SelfId, write_group};

/// What a node of these tests says of itself.
pub const PLAIN: Attrs = Attrs {
    link: true,
    gap: 63,
    speed: 2,
    delay: 0,
    contender: false,
    power: 0,
    initiated: false,
};

#[test]
fn made(rt: HostRuntime) {
    let ports = [PortStatus::Down, PortStatus::Unplugged, PortStatus::Absent];
    let node = SelfId::new(PLAIN, &ports);
    let mut out = QuadGroup::new();
    write_group(&node, 1, &mut out);
    assert!(rt; out.as_slice() == [0x817f_80d0].as_slice());
}

//! PHY packets, both ways.

use phy_packet::{PhyPacket, decode, encode, is_valid};
use std::test::Fail;

// Quadlets and the packets that the standard's figures make of them.
#[test]
fn figures(rt: HostRuntime) -> Result<(), Fail> {
    let zero = PhyPacket::SelfZero {
        phy_id: 1,
        link: true,
        gap: 63,
        speed: 2,
        delay: 0,
        contender: true,
        power: 0,
        p0: 3,
        p1: 1,
        p2: 1,
        initiated: false,
        more: false,
    };
    let more = PhyPacket::SelfMore {
        phy_id: 4,
        n: 0,
        kept: 0,
        fields: 0xd557,
        r: false,
        more: false,
    };
    let config = PhyPacket::Config {
        root_id: 1,
        force: true,
        set_gap: true,
        gap: 5,
        rest: 0,
    };
    let link_on = PhyPacket::LinkOn { phy_id: 2, rest: 0 };
    let extended = PhyPacket::Extended { word: 0x0304_0000 };
    let other = PhyPacket::Other { word: 0xc000_0001 };
    for (quad, packet) in [
        (0x817f_88d4, zero),
        (0x8483_555c, more),
        (0x01c5_0000, config),
        (0x4200_0000, link_on),
        (0x0304_0000, extended),
        (0xc000_0001, other),
    ] {
        assert!(rt; decode(quad) == packet && is_valid(&packet), "{quad:x}");
    }
    assert!(rt; encode(&decode(0x8483_555c)) == 0x8483_555c);
    Ok(())
}

//! The six packets.

/// What the first quadlet of a PHY packet says.
///
/// Numbers hold the bits of one field each, as wide as the field's comment says. Reserved bits and
/// values that later standards use are carried as they are.
#[derive(Clone, Copy, Debug, PartialEq, Eq)]
pub enum PhyPacket {
    /// PHY configuration packet, where R or T is set: `root_id` (6 bits), R as `force`, T as
    /// `set_gap`, `gap` (6 bits) and the 16 bits after it, which the standard has as 0.
    Config {
        root_id: u8,
        force: bool,
        set_gap: bool,
        gap: u8,
        rest: u16,
    },
    /// Link-on packet: `phy_id` (6 bits) and the 24 bits after it, which the standard has as 0.
    LinkOn {
        phy_id: u8,
        rest: u32,
    },
    /// Self-ID packet zero: `phy_id` (6 bits), L, gap_cnt (6), sp (2), the two bits that
    /// 1394-1995 calls delay, c, pwr (3), the port fields p0 to p2 (2 each), i and m.
    SelfZero {
        phy_id: u8,
        link: bool,
        gap: u8,
        speed: u8,
        delay: u8,
        contender: bool,
        power: u8,
        p0: u8,
        p1: u8,
        p2: u8,
        initiated: bool,
        more: bool,
    },
    /// Further self-ID packet: `phy_id` (6 bits), its number `n` (3), two reserved bits as `kept`,
    /// eight port fields as the 16 bits of `fields`, the first at the top, r and m.
    SelfMore {
        phy_id: u8,
        n: u8,
        kept: u8,
        fields: u16,
        r: bool,
        more: bool,
    },
    /// Extended PHY packet: the top two bits are 00, and neither R nor T is set. Carried whole.
    Extended {
        word: u32,
    },
    /// No PHY packet that is defined: the top two bits are 11. Carried whole.
    Other {
        word: u32,
    },
}

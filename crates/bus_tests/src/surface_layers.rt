//! The types and calls of the lower layers that programs use, each named once, so that none goes missing.

use bus_manager::Bid;
use cabling::{Cable, CableFault, Cabling, Cyclic, End, NodeSet, TreeFromFault, Walk};
use config_rom::{Block, BlockKind, BlockList, CrcState, Rom, RomFault, RomStop};
use loop_advice::{Advice, CableList};
use phy_packet::PhyPacket;
use quad_lanes::{PairFault, QuadList};
use resource_manager::{GrantFault, Registers, Reply, Seen};
use root_plan::RootPlan;
use self_id::{Attrs, GroupFault, PortList, PortStatus, QuadGroup, SelfId};
use std::alloc::{AllocError, Global};
use std::test::Fail;
use topology_map::{ImageFault, MapParts};
use topology_stack::{BusTree, Name, NameList, TreeFault, TreeReader, TreeStop};

/// How many whole pairs stand before a fault.
fn whole_pairs_of(fault: &PairFault) -> Option<usize> {
    match fault {
        PairFault::Length { whole_pairs } => Some(*whole_pairs),
        PairFault::Memory(_) => None,
    }
}

/// The fault of bytes that are no pairs.
fn pair_fault(alloc: Global, bytes: &[u8]) -> Option<PairFault> {
    match quad_lanes::pairs_of(alloc, bytes) {
        Ok(_) => None,
        Err(fault) => Some(fault),
    }
}

/// Whether the first quadlets of pairs are these.
fn firsts_are(alloc: Global, wanted: &[u32]) -> Result<bool, quad_lanes::OutOfMemory> {
    let firsts: QuadList = quad_lanes::firsts(alloc, &[1, 2])?;
    let mut list = QuadList::new(alloc);
    list.push(1)?;
    Ok(firsts.as_slice() == wanted && quad_lanes::same_list(list.as_slice(), wanted))
}

#[test]
fn lanes(rt: HostRuntime) -> Result<(), Fail> {
    let cut = pair_fault(rt.alloc(), &[0x80, 0x7f, 0x80]).ok_or("half a pair")?;
    assert!(rt; whole_pairs_of(&cut) == Some(0));
    assert!(rt; whole_pairs_of(&PairFault::Memory(AllocError)).is_none());
    assert!(rt; firsts_are(rt.alloc(), &[1])?);
    assert!(rt; quad_lanes::first_bad_pair(&[0, 0xffff_ffff, 0, 0]) == Some(1));
    let mut row = [3, 4];
    quad_lanes::min_row(&mut row, &[1, 5], 2);
    assert!(rt; row == [1, 2]);
    Ok(())
}

/// Packets of each kind, and their quadlets.
const PACKETS: [(PhyPacket, u32); 6] = [
    (
        PhyPacket::Config {
            root_id: 1,
            force: true,
            set_gap: true,
            gap: 5,
            rest: 0,
        },
        0x01c5_0000,
    ),
    (PhyPacket::LinkOn { phy_id: 2, rest: 0 }, 0x4200_0000),
    (
        PhyPacket::SelfZero {
            phy_id: 1,
            link: true,
            gap: 63,
            speed: 2,
            delay: 0,
            contender: true,
            power: 0,
            p0: 3,
            p1: 1,
            p2: 1,
            initiated: false,
            more: false,
        },
        0x817f_88d4,
    ),
    (
        PhyPacket::SelfMore {
            phy_id: 4,
            n: 0,
            kept: 0,
            fields: 0xd557,
            r: false,
            more: false,
        },
        0x8483_555c,
    ),
    (PhyPacket::Extended { word: 0x0304_0000 }, 0x0304_0000),
    (PhyPacket::Other { word: 0xc000_0001 }, 0xc000_0001),
];

/// The place of a packet's kind among these.
fn kind_of(packet: &PhyPacket) -> usize {
    match packet {
        PhyPacket::Config { .. } => 0,
        PhyPacket::LinkOn { .. } => 1,
        PhyPacket::SelfZero { .. } => 2,
        PhyPacket::SelfMore { .. } => 3,
        PhyPacket::Extended { .. } => 4,
        PhyPacket::Other { .. } => 5,
    }
}

/// Whether a packet is written as a quadlet, and the quadlet read as the packet.
fn is_packet(packet: &PhyPacket, quad: u32) -> bool {
    phy_packet::is_valid(packet)
        && phy_packet::encode(packet) == quad
        && phy_packet::decode(quad) == *packet
}

#[test]
fn packets(rt: HostRuntime) {
    for (at, (packet, quad)) in PACKETS.iter().enumerate() {
        assert!(rt; kind_of(packet) == at && is_packet(packet, *quad));
    }
}

/// What the nodes of these tests say of themselves.
const ATTRS: Attrs = Attrs {
    link: true,
    gap: 63,
    speed: 2,
    delay: 0,
    contender: true,
    power: 0,
    initiated: false,
};

/// The quadlet of such a node that is alone.
const ALONE: u32 = 0x807f_8854;

/// What a port field says, by its number.
fn status_of(bits: usize) -> Option<PortStatus> {
    match bits {
        0 => Some(PortStatus::Absent),
        1 => Some(PortStatus::Unplugged),
        2 => Some(PortStatus::Up),
        3 => Some(PortStatus::Down),
        _ => None,
    }
}

/// The number of a port field that says this.
fn bits_of(status: PortStatus) -> usize {
    match status {
        PortStatus::Absent => 0,
        PortStatus::Unplugged => 1,
        PortStatus::Up => 2,
        PortStatus::Down => 3,
    }
}

#[test]
fn port_fields(rt: HostRuntime) {
    let mut list = PortList::new();
    for bits in 0..4 {
        if let Some(status) = status_of(bits) {
            assert!(rt; bits_of(status) == bits);
        }
    }
    list.push(PortStatus::Up);
    assert!(rt; list.as_slice() == [PortStatus::Up].as_slice());
}

/// Whether a node was read, and its group is one quadlet.
fn is_read(read: Result<(SelfId, usize), GroupFault>, wanted: &SelfId) -> bool {
    match read {
        Ok((node, next)) => node == *wanted && next == 1,
        Err(_) => false,
    }
}

#[test]
fn groups(rt: HostRuntime) {
    let node = SelfId::new(ATTRS, &[PortStatus::Unplugged; 3]);
    assert!(rt; node.attrs == ATTRS && node.ports.as_slice().len() == 3);
    assert!(rt; node.kept_a == 0 && node.kept_b == 0);
    let mut group = QuadGroup::new();
    self_id::write_group(&node, 0, &mut group);
    assert!(rt; group.as_slice() == [ALONE].as_slice());
    let mut pushed = QuadGroup::new();
    pushed.push(ALONE);
    assert!(rt; pushed.as_slice() == group.as_slice());
    assert!(rt; is_read(self_id::read_group(&[ALONE], 0, 0), &node));
    assert!(rt; is_read(self_id::read_group95(&[ALONE], 0, 0), &node));
}

/// Faults of each kind, each at its place here.
const GROUP_FAULTS: [GroupFault; 5] = [
    GroupFault::NotSelfId { at: 0 },
    GroupFault::WrongId {
        at: 1,
        found: 2,
        wanted: 1,
    },
    GroupFault::BadOrder { at: 2 },
    GroupFault::Cut { at: 3 },
    GroupFault::TwoParents { at: 4 },
];

/// Where a group is at fault.
fn group_place(fault: GroupFault) -> usize {
    match fault {
        GroupFault::NotSelfId { at } => at,
        GroupFault::WrongId { at, .. } => at,
        GroupFault::BadOrder { at } => at,
        GroupFault::Cut { at } => at,
        GroupFault::TwoParents { at } => at,
    }
}

#[test]
fn faults_of_groups(rt: HostRuntime) {
    for (at, fault) in GROUP_FAULTS.iter().enumerate() {
        assert!(rt; group_place(*fault) == at);
    }
}

/// Faults of each kind, each at its place here.
const TREE_FAULTS: [TreeFault; 7] = [
    TreeFault::Empty,
    TreeFault::Group(GroupFault::Cut { at: 1 }),
    TreeFault::TooFewChildren {
        at: 2,
        found: 1,
        wanted: 2,
    },
    TreeFault::TreesLeft {
        at: 3,
        found: 2,
        wanted: 1,
    },
    TreeFault::AfterRoot { at: 4 },
    TreeFault::NoRoot { at: 5 },
    TreeFault::TooMany { at: 6 },
];

/// Where a list is at fault.
fn tree_place(fault: TreeFault) -> usize {
    match fault {
        TreeFault::Group(group) => group_place(group),
        TreeFault::Empty => 0,
        TreeFault::TooFewChildren { at, .. } => at,
        TreeFault::TreesLeft { at, .. } => at,
        TreeFault::AfterRoot { at } => at,
        TreeFault::NoRoot { at } => at,
        TreeFault::TooMany { at } => at,
    }
}

/// The fault for which a tree is refused.
fn tree_fault(stop: TreeStop) -> Option<TreeFault> {
    match stop {
        TreeStop::Fault(fault) => Some(fault),
        TreeStop::Memory(_) => None,
    }
}

#[test]
fn faults_of_trees(rt: HostRuntime) {
    for (at, fault) in TREE_FAULTS.iter().enumerate() {
        assert!(rt; tree_place(*fault) == at);
        assert!(rt; tree_fault(TreeStop::Fault(*fault)) == Some(*fault));
    }
    assert!(rt; tree_fault(TreeStop::Memory(AllocError)).is_none());
}

/// The tree of a node that is alone.
fn alone(alloc: Global) -> Result<BusTree, TreeStop> {
    topology_stack::read_tree(alloc, &[ALONE])
}

/// Whether a tree is the one of a node that is alone.
fn is_alone(alloc: Global, tree: &BusTree) -> Result<bool, topology_stack::OutOfMemory> {
    let list: QuadList = topology_stack::write_tree(alloc, tree)?;
    Ok(
        list.as_slice() == [ALONE].as_slice()
            && tree.len() == 1
            && tree.root() == 0
            && tree.node(0).attrs == ATTRS
            && topology_stack::elect(tree) == Some(0),
    )
}

/// Where the first port of the root leads.
fn far_from_root(tree: &BusTree) -> Option<u8> {
    let root = tree.root();
    let node: &SelfId = tree.node(root);
    if node.ports.as_slice().is_empty() {
        None
    } else {
        tree.far(root, 0)
    }
}

#[test]
fn trees(rt: HostRuntime) -> Result<(), Fail> {
    let tree = alone(rt.alloc())?;
    assert!(rt; is_alone(rt.alloc(), &tree)? && far_from_root(&tree).is_none());
    let older: BusTree = topology_stack::read_tree95(rt.alloc(), &[ALONE])?;
    assert!(rt; is_alone(rt.alloc(), &older)?);
    let mut reader = TreeReader::new();
    reader.push(ALONE);
    assert!(rt; reader.kept() == 1);
    let streamed: BusTree = reader.finish(rt.alloc())?;
    assert!(rt; is_alone(rt.alloc(), &streamed)?);
    Ok(())
}

/// The text of the tree of a node with a name.
const TEXT: &[u8] =
    b"node 0 link 1 gap 63 speed 2 contender 1 power 0 initiated 0 ports . . . name a\nnodes 1 root 0 irm 0\n";

/// Whether this is the text of a tree where its nodes have these names.
fn text_is(
    alloc: Global,
    tree: &BusTree,
    names: &NameList,
    wanted: &[u8],
) -> Result<bool, topology_stack::OutOfMemory> {
    if names.as_slice().len() != usize::from(tree.len()) {
        return Ok(false);
    }
    let text: Vec<u8> = topology_stack::tree_text(alloc, tree, names)?;
    Ok(text.as_slice() == wanted)
}

#[test]
fn names(rt: HostRuntime) -> Result<(), Fail> {
    let name: Name = Name::new(b"a").ok_or("a name")?;
    assert!(rt; name.as_bytes() == b"a".as_slice());
    let mut names = NameList::new(rt.alloc());
    names.push(name)?;
    assert!(rt; text_is(rt.alloc(), &alone(rt.alloc())?, &names, TEXT)?);
    Ok(())
}

/// The first ports of the two nodes of these tests.
const FIRST: End = End { node: 0, port: 0 };

const SECOND: End = End { node: 1, port: 0 };

/// Faults of each kind, each of the node whose number is its place here.
const CABLE_FAULTS: [CableFault; 5] = [
    CableFault::NoNode { end: FIRST },
    CableFault::NoPort { end: SECOND },
    CableFault::InUse {
        end: End { node: 2, port: 0 },
    },
    CableFault::SameNode { node: 3 },
    CableFault::NotPlugged {
        end: End { node: 4, port: 0 },
    },
];

/// The node for which a cable is refused.
fn node_of(fault: CableFault) -> u8 {
    match fault {
        CableFault::NoNode { end } => end.node,
        CableFault::NoPort { end } => end.node,
        CableFault::InUse { end } => end.node,
        CableFault::SameNode { node } => node,
        CableFault::NotPlugged { end } => end.node,
    }
}

/// The core for which there is no tree.
fn core_of(fault: &TreeFromFault) -> Option<NodeSet> {
    match fault {
        TreeFromFault::Cyclic { core } => Some(*core),
        TreeFromFault::Memory(_) => None,
    }
}

#[test]
fn faults_of_cables(rt: HostRuntime) {
    for (at, fault) in CABLE_FAULTS.iter().enumerate() {
        assert!(rt; usize::from(node_of(*fault)) == at);
    }
    let cyclic = Cyclic {
        core: NodeSet::none(),
    };
    let fault = TreeFromFault::Cyclic { core: cyclic.core };
    assert!(rt; core_of(&fault) == Some(cyclic.core));
    assert!(rt; core_of(&TreeFromFault::Memory(AllocError)).is_none());
}

/// Two nodes with a cable between them.
fn joined(alloc: Global) -> Result<Cabling, cabling::OutOfMemory> {
    let mut cabling = Cabling::new(alloc, &[3, 3])?;
    let _plugged: Result<(), CableFault> = cabling.plug(FIRST, SECOND);
    Ok(cabling)
}

/// Whether two nodes are joined.
fn are_joined(cabling: &Cabling) -> bool {
    if cabling.nodes() != 2 || cabling.ports(0) != 3 {
        return false;
    }
    let nodes: NodeSet = cabling.component(0);
    nodes.has(1)
        && nodes.len() == 2
        && nodes.least() == Some(0)
        && cabling.core(nodes).is_empty()
        && cabling.far(FIRST) == Some(SECOND)
}

/// Whether the walk from the first of two nodes is this one.
fn walk_is(cabling: &Cabling, wanted: &Walk) -> bool {
    if cabling.nodes() == 0 {
        return false;
    }
    match cabling.walk_from(0) {
        Ok(walk) => walk.as_slice() == wanted.as_slice(),
        Err(_) => false,
    }
}

/// The tree of two nodes from the first of them.
fn tree_of_two(alloc: Global, cabling: &Cabling) -> Result<BusTree, TreeFromFault> {
    if cabling.nodes() != 2 {
        return Err(TreeFromFault::Memory(AllocError));
    }
    cabling.tree_from(alloc, 0, &[ATTRS; 2])
}

#[test]
fn cables(rt: HostRuntime) -> Result<(), Fail> {
    let mut cabling = joined(rt.alloc())?;
    assert!(rt; are_joined(&cabling));
    let mut walk = Walk::new();
    walk.push(1);
    walk.push(0);
    assert!(rt; walk_is(&cabling, &walk));
    assert!(rt; tree_of_two(rt.alloc(), &cabling)?.len() == 2);
    let pulled: Result<Cable, CableFault> = cabling.pull(SECOND);
    assert!(rt;
        pulled
            == Ok(Cable {
                a: SECOND,
                b: FIRST
            })
    );
    Ok(())
}

/// The number of a fault's kind among those of images of a topology map.
fn image_kind(fault: &ImageFault) -> u32 {
    match fault {
        ImageFault::Length { found: _ } => 0,
        ImageFault::Crc {
            kept: _,
            computed: _,
        } => 1,
        ImageFault::Counts { kept: _, found: _ } => 2,
        ImageFault::Memory(_) => 3,
    }
}

/// Whether an image is one of this list, or the fault of another has this number.
fn image_is(alloc: Global, quads: &[u32], wanted: &[u32], kind: u32) -> bool {
    match topology_map::read_image(alloc, quads) {
        Ok(parts) => {
            let MapParts {
                generation,
                nodes,
                list,
            } = parts;
            generation == 1 && nodes == 1 && list.as_slice() == wanted
        }
        Err(fault) => image_kind(&fault) == kind,
    }
}

#[test]
fn topology_maps(rt: HostRuntime) -> Result<(), Fail> {
    let tree = alone(rt.alloc())?;
    let image: QuadList = topology_map::image(rt.alloc(), &tree, 1)?;
    assert!(rt; image_is(rt.alloc(), image.as_slice(), &[ALONE], 4));
    assert!(rt; image_is(rt.alloc(), &[1], &[], 0));
    assert!(rt;
        image_is(
            rt.alloc(),
            &[0x0003_ca62, 1, 0x0001_0001, 0x807f_0054],
            &[],
            1
        )
    );
    assert!(rt; topology_map::crc16(&[1, 0x0001_0001, 0x807f_0054]) == 0xca63);
    Ok(())
}

#[test]
fn speed_maps(rt: HostRuntime) -> Result<(), Fail> {
    let tree = alone(rt.alloc())?;
    let rows: Vec<u8> = speed_map::rows(rt.alloc(), &tree)?;
    assert!(rt; rows.len() == 64);
    let image: QuadList = speed_map::image(rt.alloc(), &rows, 1)?;
    assert!(rt; image.as_slice().len() == 18);
    Ok(())
}

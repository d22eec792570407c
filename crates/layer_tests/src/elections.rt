//! Elections of managers, hops and gap counts.

use bus_manager::{Bid, attempt, gap_for, hops, plan_config};
use resource_manager::Registers;
use std::test::Fail;
use topology_stack::read_tree;

// Lists, their hops, and the gap count for these.
#[test]
fn longest_paths(rt: HostRuntime) -> Result<(), Fail> {
    let cases: [(&[u32], u8, u8); 4] = [
        // one node
        (&[0x807f_8054], 0, 63),
        // two nodes
        (&[0x807f_8094, 0x817f_88d4], 1, 5),
        // four leaves on a hub
        (
            &[
                0x807f_8094,
                0x817f_8094,
                0x827f_8094,
                0x837f_8094,
                0x847f_80dd,
                0x8483_555c,
            ],
            2,
            7,
        ),
        // a line of four whose root is its second node
        (&[0x807f_8094, 0x817f_8094, 0x827f_80e4, 0x837f_80f4], 3, 8),
    ];
    for (list, cables, gap) in cases {
        let tree = read_tree(rt.alloc(), list)?;
        assert!(rt; hops(&tree) == cables && gap_for(cables) == gap);
    }
    Ok(())
}

#[test]
fn plans(rt: HostRuntime) -> Result<(), Fail> {
    let tree = read_tree(rt.alloc(), &[0x807f_8094, 0x817f_88d4])?;
    assert!(rt; tree.len() == 2);
    assert!(rt; plan_config(&tree, 1) == 0x01c5_0000);
    Ok(())
}

#[test]
fn attempts(rt: HostRuntime) {
    let mut regs = Registers::new();
    assert!(rt; attempt(&mut regs, 5) == Bid::Won);
    assert!(rt; attempt(&mut regs, 6) == Bid::Lost { old: 5 });
}

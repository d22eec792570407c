//! Texts that need no run: of a report, of what a run is worth, and of made scripts.

use script_made::make_script;
use script_text::{report_text, summary};
use settle::{PartList, Report};
use std::test::Fail;
use topology_stack::NameList;

#[test]
fn last_reports(rt: HostRuntime) -> Result<(), Fail> {
    let text = b"report 1 turn 5\nnode 0\n\nreport 2 turn 9\ntree root a\nnode 0 link 1\nnodes 1\n";
    let shown = summary(rt.alloc(), text)?;
    assert!(rt; shown.as_slice() == b"report 2 turn 9\ntree root a\nnodes 1\n".as_slice());
    let none = summary(rt.alloc(), b"node 0\nreports\n")?;
    assert!(rt; none.is_empty());
    Ok(())
}

#[test]
fn report_of_no_nodes(rt: HostRuntime) -> Result<(), Fail> {
    let report = Report {
        turn: 40,
        parts: PartList::new(rt.alloc()),
    };
    let text = report_text(rt.alloc(), &report, 2, &NameList::new(rt.alloc()))?;
    assert!(rt; text.as_slice() == b"report 2 turn 40\n".as_slice());
    Ok(())
}

/// How many nodes, a seed, and the script that is made. A single node is joined to nothing, and the seed
/// after the greatest is 0.
const MADE: &[(u8, u32, &[u8])] = &[
    (
        1,
        4_294_967_295,
        b"node n0 3 contender 1 seed 4294967295\nsettle\n",
    ),
    (
        2,
        4_294_967_295,
        b"node n0 3 contender 1 seed 4294967295\nnode n1 3 contender 1 seed 0\nplug n0 2 n1 0\nsettle\npull n1 0\nturn 95\nplug n0 2 n1 0\n",
    ),
    (
        5,
        7,
        b"node n0 3 contender 1 seed 7\nnode n1 3 contender 1 seed 8\nnode n2 3 contender 1 seed 9\nnode n3 3 contender 1 seed 10\nnode n4 3 contender 1 seed 11\nplug n0 1 n1 0\nplug n0 0 n2 0\nplug n2 1 n3 0\nplug n1 2 n4 0\nsettle\npull n1 0\nturn 181\nplug n0 1 n1 0\npull n2 0\nturn 200\nplug n0 0 n2 0\npull n3 0\nturn 207\nplug n2 1 n3 0\npull n4 0\nturn 114\nplug n1 2 n4 0\n",
    ),
];

#[test]
fn made_texts(rt: HostRuntime) -> Result<(), Fail> {
    for (n, seed, script) in MADE {
        assert!(rt; make_script(rt.alloc(), *n, *seed)?.as_slice() == *script);
    }
    Ok(())
}

// The most nodes.
#[test]
fn made_text_of_63_nodes(rt: HostRuntime) -> Result<(), Fail> {
    let text = make_script(rt.alloc(), 63, 1)?;
    assert!(rt; text.len() == 5201);
    assert!(rt;
        text.as_slice()
            .ends_with(b"pull n62 0\nturn 106\nplug n59 2 n62 0\n")
    );
    Ok(())
}

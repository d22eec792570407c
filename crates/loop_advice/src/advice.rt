//! What is advised.
ghost use Rattle.std.specs.Prelude.{◌<◌, ℕ, length, OnOk, IfOk};
ghost use Rattle.cabling.specs.Component.{IsComponent};
ghost use Rattle.loop_advice.specs.Advised.{AreAdvised};
ghost use Rattle.loop_advice.specs.Certificate.{IsCertificate};
ghost use Rattle.loop_advice.specs.codings.Placed.{WasPlaced};

use crate::cable_list::CableList;
use crate::cables_in_order::cables_within;
use crate::groups::Groups;
use cabling::{Cable, Cabling, OutOfMemory, cables_are_two_ended};
use std::alloc::Global;

/// The cables of a component in two lists: those to pull and those to leave.
#[derive(Debug, Drop)]
pub struct Advice {
    /// The cables to pull.
    pub pulls: CableList,
    /// The cables that stay.
    pub kept: CableList,
}

/// Appends a cable to the pulls if its nodes are joined already, and else to the kept ones, which
/// join them from now on.
fn place(advice: &mut Advice, groups: &mut Groups, cable: Cable) -> Result<(), OutOfMemory>
    requires a { cable.a.node < 63 }
    requires b { cable.b.node < 63 }
    ensures { OnOk result (WasPlaced
        (record { groups = groups.old; pulls = advice.old.pulls; kept = advice.old.kept })
        (record { groups = groups.new; pulls = advice.new.pulls; kept = advice.new.kept })
        cable) }
{
    if groups.are_joined(cable.a.node, cable.b.node) {
        advice.pulls.push(cable)
    } else {
        groups.join(cable.a.node, cable.b.node);
        advice.kept.push(cable)
    }
}

/// Which cables of a node's component to pull so that a tree is left. The node exists.
///
/// A cable is to be pulled where cables that stand before it in the order join its two nodes; the
/// others stay. Each list stands in the order of the cables' lower ends, by node and then by port,
/// and each cable has this end first. `Err` means that there is no memory for the lists.
pub fn advise(alloc: Global, cabling: &Cabling, node: u8) -> Result<Advice, OutOfMemory>
    requires { node < length cabling.now }
    ensures advised { IfOk result (λ advice.
        (set : ℕ) → IsComponent cabling.now node set →
        AreAdvised cabling.now set advice.pulls advice.kept) }
    ensures valid { IfOk result (λ advice.
        IsCertificate cabling.now node advice.pulls advice.kept) }
{
    cables_are_two_ended(cabling);
    let component = cabling.component(node);
    let cables = cables_within(alloc, cabling, component)?;
    let mut groups = Groups::new();
    let mut advice = Advice {
        pulls: CableList::new(alloc),
        kept: CableList::new(alloc),
    };
    for cable in cables.as_slice() {
        place(&mut advice, &mut groups, *cable)?;
    }
    Ok(advice)
}

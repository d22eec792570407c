//! Whether an advice is valid.
ghost use Rattle.std.specs.Prelude.{◌≡◌, ◌↔◌, ◌<◌, ◌+◌, ◌^◌, ◌++◌, ℕ, Some, length, MatchBool, slice_get, IsTrue};
ghost use Rattle.cabling.specs.declared.cable.End.{End};
ghost use Rattle.cabling.specs.declared.cable.Cable.{Cable};
ghost use Rattle.cabling.specs.Wiring.{IsCabling};
ghost use Rattle.cabling.specs.NodeSet.{Holds};
ghost use Rattle.cabling.specs.Component.{IsClosed};
ghost use Rattle.loop_advice.specs.Cables.{Lists, IsCableOf, HoldsEachOnce, JoinAll};
ghost use Rattle.loop_advice.specs.Certificate.{IsCertificate};
ghost use Rattle.loop_advice.specs.codings.Marks.{IsMarkedAt, AreMarked};

use crate::advice::Advice;
use crate::groups::Groups;
use crate::marks::Marks;
use cabling::{Cable, Cabling, End, NodeSet, cables_are_two_ended};

/// Whether a cable is plugged in, at a node of the set. The nodes of the set exist.
fn is_cable_of(cabling: &Cabling, set: NodeSet, cable: Cable) -> bool
    requires { (node : ℕ) → Holds set node → node < length cabling.now }
    ensures { MatchBool result
        (IsCableOf cabling.now set cable)
        (IsCableOf cabling.now set cable → ⊥) }
{
    if !set.has(cable.a.node) || cable.a.port >= cabling.ports(cable.a.node) {
        return false;
    }
    match cabling.far(cable.a) {
        Some(far) => far == cable.b,
        None => false,
    }
}

/// Whether each end with a cable at a node is marked. The node exists.
fn is_marked_at(cabling: &Cabling, marks: &Marks, node: u8) -> bool
    requires { node < length cabling.now }
    ensures { MatchBool result
        (IsMarkedAt cabling.now marks.now node)
        (IsMarkedAt cabling.now marks.now node → ⊥) }
{
    cables_are_two_ended(cabling);
    for port in 0..cabling.ports(node) {
        let end = End { node, port };
        if cabling.far(end).is_some() && !marks.has(end) {
            return false;
        }
    }
    true
}

/// Whether each end with a cable at a node of the set is marked. The nodes of the set exist.
fn are_marked(cabling: &Cabling, marks: &Marks, set: NodeSet) -> bool
    requires { (node : ℕ) → Holds set node → node < length cabling.now }
    ensures { MatchBool result
        (AreMarked cabling.now marks.now set)
        (AreMarked cabling.now marks.now set → ⊥) }
{
    for node in 0..cabling.nodes() {
        if set.has(node) && !is_marked_at(cabling, marks, node) {
            return false;
        }
    }
    true
}

/// The cable at a place of the two lists, the pulls first.
fn cable_at(advice: &Advice, at: usize) -> Cable
    requires { at < length (advice.now.pulls ++ advice.now.kept) }
    ensures { slice_get (advice.now.pulls ++ advice.now.kept) at ≡ Some result }
{
    let pulls = advice.pulls.as_slice();
    if at < pulls.len() {
        pulls[at]
    } else {
        advice.kept.as_slice()[at - pulls.len()]
    }
}

/// Whether the two lists together hold each cable of a set of nodes once and no other. The nodes of
/// the set exist, and no cable leads out of it.
fn holds_each_once(cabling: &Cabling, set: NodeSet, advice: &Advice) -> bool
    requires exist { (node : ℕ) → Holds set node → node < length cabling.now }
    requires closed { IsClosed cabling.now set }
    ensures { MatchBool result
        (HoldsEachOnce cabling.now set (advice.now.pulls ++ advice.now.kept))
        (HoldsEachOnce cabling.now set (advice.now.pulls ++ advice.now.kept) → ⊥) }
{
    cables_are_two_ended(cabling);
    let mut marks = Marks::new();
    for at in 0..advice.pulls.as_slice().len() + advice.kept.as_slice().len() {
        let cable = cable_at(advice, at);
        if !is_cable_of(cabling, set, cable) || marks.has(cable.a) {
            return false;
        }
        marks.insert(cable.a);
        marks.insert(cable.b);
    }
    are_marked(cabling, &marks, set)
}

/// Whether the cables join a node to each node of a set. The nodes are below 63.
fn join_all(cables: &[Cable], node: u8, set: NodeSet) -> bool
    requires small { (x : Cable) → Lists cables.now x → x.a.node < 63 }
    requires node { node < 63 }
    requires set { set < 2 ^ 63 }
    ensures { MatchBool result
        (JoinAll cables.now node set)
        (JoinAll cables.now node set → ⊥) }
{
    let mut groups = Groups::new();
    for cable in cables {
        groups.join(cable.a.node, cable.b.node);
    }
    for other in 0..63u8 {
        if set.has(other) && !groups.are_joined(node, other) {
            return false;
        }
    }
    true
}

/// Whether an advice for the component of a node is valid, whoever made it. The node exists.
///
/// It is where the two lists together hold each cable of the component once and no other, `kept`
/// has one cable fewer than the component has nodes, and the kept cables alone join all its nodes.
/// The ends of a cable may stand in either order, and so may the cables of a list.
pub fn check(cabling: &Cabling, node: u8, advice: &Advice) -> bool
    requires { node < length cabling.now }
    ensures { MatchBool result
        (IsCertificate cabling.now node advice.now.pulls advice.now.kept)
        (IsCertificate cabling.now node advice.now.pulls advice.now.kept → ⊥) }
{
    cables_are_two_ended(cabling);
    let component = cabling.component(node);
    let kept = advice.kept.as_slice();
    if !holds_each_once(cabling, component, advice) {
        return false;
    }
    if kept.len() + 1 != component.len() as usize {
        return false;
    }
    join_all(kept, node, component)
}

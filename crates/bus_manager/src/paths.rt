//! The longest path of a bus.
ghost use Rattle.std.specs.Prelude.{◌≡◌, ◌+◌, ◌≤◌, ◌<◌, [], length, All, slice_get, IsSomeAnd};
ghost use Rattle.topology_stack.specs.Tree.{walk};
ghost use Rattle.bus_manager.specs.Hops.{IsHops, HopsAreOfNodePaths};
ghost use Rattle.bus_manager.specs.codings.Reach.{above, with_child};

use arrayvec::ArrayVec;
use self_id::count_down;
use topology_stack::BusTree;

/// How far a tree reaches, in cables.
#[derive(Clone, Copy, Debug, Default)]
struct Reach {
    /// From its outermost node down.
    depth: u8,
    /// Along its longest path.
    longest: u8,
}

/// A node's reach with one child more.
fn with_child(child: &Reach, rest: &Reach) -> Reach
    requires child { child.now.depth ≤ 62 }
    requires rest { rest.now.depth ≤ 63 }
    ensures { result ≡ with_child child.now rest.now }
{
    let deeper = child.depth + 1;
    Reach {
        depth: deeper.max(rest.depth),
        longest: child.longest.max(deeper + rest.depth).max(rest.longest),
    }
}

/// The reach of a node above these children.
fn above(children: &[Reach]) -> Reach
    requires { All (λ r. r.depth ≤ 61) children.now }
    ensures value { result ≡ above children.now }
    ensures small { result.depth ≤ 62 }
{
    let mut reach = Reach::default();
    for place in (0..children.len()).rev() {
        reach = with_child(&children[place], &reach);
    }
    reach
}

/// The number of cables on the longest path of the tree: 0 to 62.
pub fn hops(tree: &BusTree) -> u8
    ensures longest { IsHops tree.now result }
    ensures few { result ≤ 62 }
{
    let mut waiting = ArrayVec::<Reach, 63>::new();
    for id in 0..tree.len() {
        let children = count_down(tree.node(id).ports.as_slice());
        let start = waiting.len().saturating_sub(children);
        let reach = above(&waiting[start..]);
        waiting.truncate(start);
        waiting.push(reach);
    }
    waiting[0].longest
}

/// A law: the hops of a bus are the cables of a longest path from node to node, which has as many
/// nodes behind its first. So hops and the paths of a speed map speak of the same paths.
pub fn hops_are_of_node_paths()
    ensures { HopsAreOfNodePaths }
{}

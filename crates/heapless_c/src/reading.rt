//! Reading a list by a standard, in memory of fixed size.
ghost use Rattle.std.specs.Prelude.{◌≡◌, ◌<◌, ◌≤◌, if◌then◌else◌, Some, [], length, drop, Ok, Err, MatchResult, IfOk, IfErr};
ghost use Rattle.self_id.specs.declared.fault.GroupFault.{GroupFault};
ghost use Rattle.self_id.specs.Group.{StandsAt};
ghost use Rattle.self_id.specs.Refused.{GroupRefused};
ghost use Rattle.topology_stack.specs.declared.fault.TreeFault.TheVariants.{Group};
ghost use Rattle.topology_stack.specs.Waiting.{after_node};
ghost use Rattle.topology_stack.specs.Tree.{Tree};
ghost use Rattle.topology_stack.specs.Refused.{Refused};
ghost use Rattle.topology_stack.specs.Elect.{is_candidate};
ghost use Rattle.c_records.specs.Shown.{IsBusRecord};
ghost use Rattle.heapless_c.specs.Reading.{waits, IsLinked};

use crate::links::{Links, MAX_NODES, Roots};
use c_records::{BusRecord, id_or_none};
use self_id::{SelfId, Standard, count_down, count_up, read_group_of};
use topology_stack::TreeFault;

/// How many trees wait for a parent, and whether the last of them is the root's, which waits for none.
#[derive(Clone, Copy, Debug, PartialEq, Eq)]
pub(crate) struct Waiting {
    pub trees: u8,
    pub rooted: bool,
}

/// What waits after the node of the group at `at`, where so many trees waited before. The node's
/// children are the latest of them.
fn after_node(at: usize, found: u8, node: &SelfId) -> Result<Waiting, TreeFault>
    requires { found ≤ 63 }
    ensures { MatchResult result (λ w. after_node at found node.now ≡ Ok (waits w))
        (λ f. after_node at found node.now ≡ Err f) }
{
    let slots = node.ports.as_slice();
    let wanted = count_down(slots) as u8;
    let rooted = count_up(slots) == 0;
    if found < wanted {
        return Err(TreeFault::TooFewChildren { at, found, wanted });
    }
    if rooted && wanted < found {
        return Err(TreeFault::TreesLeft { at, found, wanted });
    }
    Ok(Waiting {
        trees: found - wanted + 1,
        rooted,
    })
}

/// The node whose group stands at a place, by a standard, and the place behind the group.
fn node_at(
    standard: Standard,
    quads: &[u32],
    at: usize,
    id: u8,
) -> Result<(SelfId, usize), TreeFault>
    requires inside { at < length quads.now }
    requires id { id ≤ 62 }
    ensures found { IfOk result (λ x. StandsAt standard quads.now at id x.0 x.1) }
    ensures refused { IfErr result (λ f. (g : GroupFault) × (f ≡ Group g)
        × GroupRefused standard at id (drop at quads.now) g) }
{
    match read_group_of(standard, quads, at, id) {
        Ok(found) => Ok(found),
        Err(fault) => Err(TreeFault::Group(fault)),
    }
}

/// The bus whose nodes emit a list, by a standard, or the list's fault. It links the nodes.
pub(crate) fn link_nodes(
    standard: Standard,
    quads: &[u32],
    links: &mut Links,
) -> Result<BusRecord, TreeFault>
    requires parents { links.old.parents.items ≡ [] }
    requires children { links.old.children ≡ [] }
    ensures found { IfOk result (λ bus. (t : Tree) × IsBusRecord t bus
        × IsLinked standard quads.now links.new.parents.items links.new.children t) }
    ensures refused { IfErr result (λ f. Refused standard quads.now f) }
{
    let mut nodes: u8 = 0;
    let mut manager = None;
    let mut roots = Roots::new();
    let mut at = 0;
    let mut waiting = Waiting {
        trees: 0,
        rooted: false,
    };
    while at < quads.len() {
        if waiting.rooted {
            return Err(TreeFault::AfterRoot { at });
        }
        if nodes as usize == MAX_NODES {
            return Err(TreeFault::TooMany { at });
        }
        let (node, after) = node_at(standard, quads, at, nodes)?;
        waiting = after_node(at, waiting.trees, &node)?;
        let kept = waiting.trees as usize - 1;
        links.add(roots.latest(kept));
        roots.join(kept, nodes);
        manager = later_manager(&node, nodes, manager);
        nodes += 1;
        at = after;
    }
    if waiting.rooted {
        Ok(BusRecord {
            nodes,
            root: nodes - 1,
            manager: id_or_none(manager),
        })
    } else if nodes == 0 {
        Err(TreeFault::Empty)
    } else {
        Err(TreeFault::NoRoot { at })
    }
}

/// The isochronous resource manager once the node with this ID is known: the node, if its link is active
/// and it contends, and else the one before.
fn later_manager(node: &SelfId, id: u8, before: Option<u8>) -> Option<u8>
    ensures { result ≡ if is_candidate node.now then Some id else before }
{
    if node.attrs.link && node.attrs.contender {
        Some(id)
    } else {
        before
    }
}

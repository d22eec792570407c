//! The trees that wait for a parent while a list is read.
ghost use Rattle.std.specs.Prelude.{◌≡◌, ◌≤◌, length};
ghost use Rattle.self_id.specs.Node.{ups, downs};
ghost use Rattle.topology_stack.specs.Waiting.{after_node};

use crate::fault::TreeFault;
use self_id::{PortStatus, SelfId};

/// How many trees wait for a parent, and whether the last of them is the root's, which waits for
/// none.
#[derive(Clone, Copy, Debug, PartialEq, Eq)]
pub(crate) struct Waiting {
    pub trees: u8,
    pub rooted: bool,
}

/// How many slots lead to a child, and how many to the parent.
#[inline]
fn count_ends(slots: &[PortStatus]) -> (usize, usize)
    ensures downs { result.0 ≡ downs slots.now }
    ensures ups { result.1 ≡ ups slots.now }
    ensures few { result.0 ≤ length slots.now }
{
    let mut downs = 0;
    let mut ups = 0;
    for slot in slots {
        match slot {
            PortStatus::Down => downs += 1,
            PortStatus::Up => ups += 1,
            PortStatus::Absent | PortStatus::Unplugged => {}
        }
    }
    (downs, ups)
}

/// What waits after the node of the group at `at`, where so many trees waited before. The node's
/// children are the latest of them.
#[inline]
pub(crate) fn after_node(at: usize, found: u8, node: &SelfId) -> Result<Waiting, TreeFault>
    requires { found ≤ 63 }
    ensures { result ≡ after_node at found node.now }
{
    let slots = node.ports.as_slice();
    let (downs, ups) = count_ends(slots);
    let wanted = downs as u8;
    let rooted = ups == 0;
    if found < wanted {
        return Err(TreeFault::TooFewChildren { at, found, wanted });
    }
    if rooted && wanted < found {
        return Err(TreeFault::TreesLeft { at, found, wanted });
    }
    Ok(Waiting {
        trees: found - wanted + 1,
        rooted,
    })
}

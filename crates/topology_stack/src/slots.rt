//! To whom a node's slots lead.
ghost use Rattle.std.specs.Prelude.{◌≡◌, ◌<◌, ◌↔◌, Some, IsNone, IsSomeAnd, length, slice_get};
ghost use Rattle.topology_stack.specs.Far.{IsLoose};
ghost use Rattle.self_id.specs.Node.{downs};
ghost use Rattle.topology_stack.specs.Stored.{ends_of};

use self_id::{PortStatus, count_down};

/// The ID at the other end of a slot, below a parent and above as many children as slots are down.
pub(crate) fn far_end(ports: &[PortStatus], slot: usize, parent: u8, children: &[u8]) -> Option<u8>
    requires inside { slot < length ports.now }
    requires children { length children.now ≡ downs ports.now }
    ensures end { slice_get (ends_of parent children.now ports.now) slot ≡ Some result }
    ensures none { IsNone result ↔ IsSomeAnd (slice_get ports.now slot) IsLoose }
{
    match ports[slot] {
        PortStatus::Absent | PortStatus::Unplugged => None,
        PortStatus::Up => Some(parent),
        PortStatus::Down => Some(children[count_down(&ports[..slot])]),
    }
}

//! The group of self-ID packets in which a node identifies itself.
ghost use Rattle.std.specs.Prelude.{◌≡◌, ◌+◌, ◌-◌, ◌*◌, ◌≤◌, ◌++◌, [], length, replicate};
ghost use Rattle.self_id.specs.declared.node.PortStatus.TheVariants.{Absent};
ghost use Rattle.port_state.specs.Ports.{is_port};
ghost use Rattle.port_state.specs.Group.{shown_node, status, statuses_from, own_group};
ghost use Rattle.self_id.specs.Slots.{slot_count};
ghost use Rattle.port_state.specs.Valid.{IsBounded};

use port_state::states::NodeState;
use port_state::{PortView, PortViews};
use self_id::{Attrs, PortList, PortStatus, QuadGroup, SelfId, slot_count, write_group};

/// The status of a port.
fn status(is_parent: bool, port: PortView) -> PortStatus
    ensures { result ≡ status is_parent port }
{
    if is_parent {
        PortStatus::Up
    } else if port.child {
        PortStatus::Down
    } else {
        PortStatus::Unplugged
    }
}

/// The statuses of a node's ports, and absent slots behind them up to `slots`.
fn statuses(parent: Option<u8>, ports: &PortViews, slots: usize) -> PortList
    requires few { length ports.now ≤ slots }
    requires most { slots ≤ 16 }
    ensures { result
        ≡ statuses_from 0 parent ports.now ++ replicate (slots - length ports.now) Absent }
{
    let mut list = PortList::new();
    for at in 0..ports.len() {
        list.push(status(parent == Some(at as u8), ports.get(at)));
    }
    for _absent in ports.len()..slots {
        list.push(PortStatus::Absent);
    }
    list
}

/// The packets of a node with an ID, 0 to 62.
pub fn own_group(s: &NodeState, id: u8) -> QuadGroup
    requires bounded { IsBounded s.now }
    requires id { id ≤ 62 }
    ensures { result ≡ own_group s.now id }
{
    let attrs = Attrs {
        gap: s.view.gap,
        initiated: s.view.initiated,
        ..s.attrs
    };
    let slots = slot_count(usize::from(s.ports));
    let ports = statuses(s.view.parent, &s.view.ports, slots);
    let mut group = QuadGroup::new();
    write_group(&SelfId::new(attrs, ports.as_slice()), id, &mut group);
    group
}

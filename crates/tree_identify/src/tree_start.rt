//! T0 (Tree ID start): all neighbours but one are to ask this node to be their parent.
ghost use Rattle.std.specs.Prelude.{◌≡◌, ◌+◌, ◌≤◌, ◌++◌, [], false, length};
ghost use Rattle.port_state.specs.Sends.{notices};
ghost use Rattle.port_state.specs.TreeIdentify.{is_decided, tree_start_row};
ghost use Rattle.port_state.specs.Tick.{does};

use port_state::states::NodeState;
use port_state::{Level, Outbox, Phase, PortViews, Signal};

/// Whether every neighbour asks, or all but one do and the node needn't wait to become root.
fn is_decided(s: &NodeState) -> bool
    ensures { result ≡ is_decided s.now }
{
    let connected = s.view.ports.connected_count();
    let asking = s.view.ports.asking_count();
    asking == connected
        || (asking + 1 == connected && (!s.view.force || s.view.timer >= s.timing.force))
}

/// Sends Child on each port whose neighbour asks, and Parent on each other, in rising port order.
fn send_notices(ports: &PortViews, out: &mut Outbox)
    requires few { length ports.now ≤ 16 }
    requires room { length out.old + length ports.now ≤ 112 }
    ensures { out.new ≡ out.old ++ notices ports.now }
{
    for at in 0..ports.len() {
        let port = ports.get(at);
        if port.connected {
            let signal = if port.shown == Level::Parent {
                Signal::Child
            } else {
                Signal::Parent
            };
            out.push(at as u8, signal);
        }
    }
}

/// T0 to T1 where the roles of the ports are decided; else the node says that its configuration
/// timed out, if it has waited that long.
pub fn tick(s: &mut NodeState, out: &mut Outbox)
    requires few { length s.old.view.ports ≤ 16 }
    requires empty { out.old ≡ [] }
    ensures state { s.new ≡ (does false (tree_start_row s.old) s.old).state }
    ensures sends { out.new ≡ (does false (tree_start_row s.old) s.old).sends }
{
    if is_decided(s) {
        send_notices(&s.view.ports, out);
        s.view.parent = s.view.ports.remaining();
        s.view.ports.adopt_all();
        s.view.phase = Phase::ChildShake;
        s.view.timed_out = false;
    } else if s.view.timer >= s.timing.timeout {
        s.view.timed_out = true;
    }
}

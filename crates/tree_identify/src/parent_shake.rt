//! T2 (Parent handshake): the parent is to take this node, or there is none and this node is the
//! root.
ghost use Rattle.std.specs.Prelude.{◌≡◌, ◌<◌, ◌≤◌, [], false, length, IsFalse};
ghost use Rattle.std.specs.Option.{ForSome};
ghost use Rattle.port_state.specs.Contention.{parent_asks};
ghost use Rattle.port_state.specs.TreeIdentify.{parent_shake_row};
ghost use Rattle.port_state.specs.Tick.{does};

use port_state::states::NodeState;
use port_state::{Level, Outbox, Phase, Signal};

/// T2 to S0: the root is granted at once; any other node where its parent port shows Child, to
/// which it sends Idle.
pub fn tick(s: &mut NodeState, out: &mut Outbox)
    requires few { length s.old.view.ports ≤ 16 }
    requires parent { ForSome s.old.view.parent (λ p. p < length s.old.view.ports) }
    requires alone { IsFalse (parent_asks s.old.view.parent s.old) }
    requires empty { out.old ≡ [] }
    ensures state { s.new ≡ (does false (parent_shake_row s.old) s.old).state }
    ensures sends { out.new ≡ (does false (parent_shake_row s.old) s.old).sends }
{
    match s.view.parent {
        None => {
            s.view.phase = Phase::SelfIdent;
            s.view.granted = true;
        }
        Some(parent) => {
            if s.view.ports.get(usize::from(parent)).shown == Level::Child {
                s.view.phase = Phase::SelfIdent;
                out.push(parent, Signal::Idle);
            }
        }
    }
}

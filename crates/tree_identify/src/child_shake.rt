//! T1 (Child handshake): the children are to see that they were taken.
ghost use Rattle.std.specs.Prelude.{◌≡◌, [], false};
ghost use Rattle.port_state.specs.TreeIdentify.{child_shake_row};
ghost use Rattle.port_state.specs.Tick.{does};

use port_state::Phase;
use port_state::states::NodeState;

/// T1 to T2 where every child shows Idle. Nothing is sent.
pub fn tick(s: &mut NodeState)
    ensures state { s.new ≡ (does false (child_shake_row s.old) s.old).state }
    ensures sends { (does false (child_shake_row s.old) s.old).sends ≡ [] }
{
    if s.view.ports.are_children_idle() {
        s.view.phase = Phase::ParentShake;
    }
}

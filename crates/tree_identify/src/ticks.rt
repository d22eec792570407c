//! The tick of the three states.
ghost use Rattle.std.specs.Prelude.{◌≡◌, [], IsFalse};
ghost use Rattle.port_state.specs.Contention.{has_rival};
ghost use Rattle.port_state.specs.Valid.{IsValid};
ghost use Rattle.tree_identify.specs.TreeStep.{tree_step};

use crate::{child_shake, parent_shake, tree_start};
use port_state::states::NodeState;
use port_state::{Outbox, Phase, Sends};

/// What a tick does in T0, T1 and T2, once it has raised the timer; in any other state nothing. A
/// node in T2 whose parent port shows Parent is left to `contention`. `out` is empty, and then has
/// what was sent.
pub fn tree_tick(s: &mut NodeState, out: &mut Sends)
    requires valid { IsValid s.old }
    requires alone { IsFalse (has_rival s.old) }
    requires empty { out.old ≡ [] }
    ensures state { s.new ≡ (tree_step s.old).state }
    ensures sends { out.new ≡ (tree_step s.old).sends }
{
    let mut outbox = Outbox::new();
    tree_tick_into(s, &mut outbox);
    out.fill(&outbox);
}

/// Does what `tree_tick` does, and passes on what is sent.
pub fn tree_tick_into(s: &mut NodeState, out: &mut Outbox)
    requires valid { IsValid s.old }
    requires alone { IsFalse (has_rival s.old) }
    requires empty { out.old ≡ [] }
    ensures state { s.new ≡ (tree_step s.old).state }
    ensures sends { out.new ≡ (tree_step s.old).sends }
{
    match s.view.phase {
        Phase::TreeStart => tree_start::tick(s, out),
        Phase::ChildShake => child_shake::tick(s),
        Phase::ParentShake => parent_shake::tick(s, out),
        _ => {}
    }
}

//! The rows of R0 (Reset start) and R1 (Reset wait).
ghost use Rattle.std.specs.Prelude.{◌≡◌, []};
ghost use Rattle.port_state.specs.Valid.{IsValid};
ghost use Rattle.bus_reset.specs.ResetStep.{reset_step};

use port_state::states::NodeState;
use port_state::{Outbox, Phase, Sends, Signal};

/// What a tick does in R0 and R1, once it has raised the timer; in any other state nothing. From
/// R0 the node goes on after the hold, and sends Idle on every connected port. From R1 it goes on
/// where all of these show Idle or Parent. `out` is empty, and then has what was sent.
pub fn reset_tick(s: &mut NodeState, out: &mut Sends)
    requires valid { IsValid s.old }
    requires empty { out.old ≡ [] }
    ensures state { s.new ≡ (reset_step s.old).state }
    ensures sends { out.new ≡ (reset_step s.old).sends }
{
    let mut outbox = Outbox::new();
    reset_tick_into(s, &mut outbox);
    out.fill(&outbox);
}

/// Does what `reset_tick` does, and passes on what is sent.
pub fn reset_tick_into(s: &mut NodeState, out: &mut Outbox)
    requires valid { IsValid s.old }
    requires empty { out.old ≡ [] }
    ensures state { s.new ≡ (reset_step s.old).state }
    ensures sends { out.new ≡ (reset_step s.old).sends }
{
    match s.view.phase {
        Phase::ResetStart => {
            if s.view.timer >= s.timing.hold {
                s.view.phase = Phase::ResetWait;
                s.view.timer = 0;
                out.push_on_every(&s.view.ports, Signal::Idle);
            }
        }
        Phase::ResetWait => {
            if s.view.ports.are_calm() {
                s.view.phase = Phase::TreeStart;
                s.view.timer = 0;
            }
        }
        _ => {}
    }
}

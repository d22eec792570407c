//! The rows from T2 to T3 and out of T3 (Root contention).
ghost use Rattle.std.specs.Prelude.{◌≡◌, ◌<◌, [], false, length, IsTrue, nat_lt, bit_or, ◌^◌, if◌then◌else◌, ◌&&◌};
ghost use Rattle.port_state.specs.declared.signal.Phase.TheVariants.{Contend};
ghost use Rattle.port_state.specs.Contention.{has_rival, contend_row, draws_with};
ghost use Rattle.port_state.specs.Coins.{coin, coins_after};
ghost use Rattle.port_state.specs.TreeIdentify.{parent_shake_row};
ghost use Rattle.port_state.specs.Tick.{does};
ghost use Rattle.port_state.specs.Valid.{IsValid};

use port_state::states::NodeState;
use port_state::{Coins, Level, Outbox, Phase, Sends, Signal};

/// Whether a node in T2 meets a rival: its parent port shows Parent.
pub fn has_rival(s: &NodeState) -> bool
    requires { IsValid s.now }
    ensures { result ≡ has_rival s.now }
{
    if s.view.phase != Phase::ParentShake {
        return false;
    }
    match s.view.parent {
        None => false,
        Some(parent) => s.view.ports.get(usize::from(parent)).shown == Level::Parent,
    }
}

/// The first 32 draws with one more coin, of which `draws` were drawn before: coin number j, from
/// 0, is bit j.
fn draws_with(coin: bool, draws: u16, first: u32) -> u32
    ensures { result ≡ draws_with coin draws first }
{
    if coin && draws < 32 {
        first | 1 << draws
    } else {
        first
    }
}

/// T2 to T3, for a node whose parent port shows Parent: it draws a coin, and waits the short time
/// for 0 and the long time for 1. It sends Idle to its rival. The timer was raised before. `out`
/// is empty, and then has what was sent.
pub fn begin(s: &mut NodeState, coins: &mut Coins, out: &mut Sends)
    requires valid { IsValid s.old }
    requires rival { IsTrue (has_rival s.old) }
    requires empty { out.old ≡ [] }
    ensures state { s.new ≡ (does (coin coins.old) (parent_shake_row s.old) s.old).state }
    ensures sends { out.new ≡ (does (coin coins.old) (parent_shake_row s.old) s.old).sends }
    ensures coins { coins.new ≡ coins_after coins.old }
{
    let mut outbox = Outbox::new();
    begin_into(s, coins, &mut outbox);
    out.fill(&outbox);
}

/// Does what `begin` does, and passes on what is sent.
pub fn begin_into(s: &mut NodeState, coins: &mut Coins, out: &mut Outbox)
    requires valid { IsValid s.old }
    requires rival { IsTrue (has_rival s.old) }
    requires empty { out.old ≡ [] }
    ensures state { s.new ≡ (does (coin coins.old) (parent_shake_row s.old) s.old).state }
    ensures sends { out.new ≡ (does (coin coins.old) (parent_shake_row s.old) s.old).sends }
    ensures coins { coins.new ≡ coins_after coins.old }
{
    let coin = coins.next();
    let view = &mut s.view;
    view.phase = Phase::Contend;
    view.timer = 0;
    view.wait = if coin { s.timing.long } else { s.timing.short };
    view.first_draws = draws_with(coin, view.draws, view.first_draws);
    view.draws = view.draws.saturating_add(1);
    if let Some(parent) = view.parent {
        out.push(parent, Signal::Idle);
    }
}

/// What a tick does in T3, once it has raised the timer: when the wait is over, a rival that asks
/// again becomes a child, and else this node asks again. `out` is empty, and then has what was
/// sent.
pub fn contend_tick(s: &mut NodeState, out: &mut Sends)
    requires valid { IsValid s.old }
    requires contends { s.old.view.phase ≡ Phase.Contend }
    requires empty { out.old ≡ [] }
    ensures state { s.new ≡ (does false (contend_row s.old) s.old).state }
    ensures sends { out.new ≡ (does false (contend_row s.old) s.old).sends }
{
    let mut outbox = Outbox::new();
    contend_tick_into(s, &mut outbox);
    out.fill(&outbox);
}

/// Does what `contend_tick` does, and passes on what is sent.
pub fn contend_tick_into(s: &mut NodeState, out: &mut Outbox)
    requires valid { IsValid s.old }
    requires contends { s.old.view.phase ≡ Phase.Contend }
    requires empty { out.old ≡ [] }
    ensures state { s.new ≡ (does false (contend_row s.old) s.old).state }
    ensures sends { out.new ≡ (does false (contend_row s.old) s.old).sends }
{
    if s.view.timer < s.view.wait {
        return;
    }
    if let Some(rival) = s.view.parent {
        let mut port = s.view.ports.get(usize::from(rival));
        if port.shown == Level::Parent {
            port.child = true;
            s.view.ports.set(usize::from(rival), port);
            s.view.parent = None;
            s.view.phase = Phase::ChildShake;
            out.push(rival, Signal::Child);
        } else {
            s.view.phase = Phase::ParentShake;
            out.push(rival, Signal::Parent);
        }
    }
}

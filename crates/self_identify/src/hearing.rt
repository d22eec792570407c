//! What a node does with the signals of self identify.
ghost use Rattle.std.specs.Prelude.{◌≡◌, ◌<◌, []};
ghost use Rattle.port_state.specs.Heard.{hears_packet};
ghost use Rattle.port_state.specs.Valid.{IsValid};
ghost use Rattle.self_identify.specs.IdentStep.{ident_heard};

use port_state::states::NodeState;
use port_state::{Outbox, Phase, Sends, Signal};

/// Repeats a packet on every other port, and keeps it, if the list has room.
fn take_packet(s: &mut NodeState, port: u8, quad: u32, out: &mut Outbox)
    requires { out.old ≡ [] }
    ensures state { s.new ≡ (hears_packet port quad s.old).state }
    ensures sends { out.new ≡ (hears_packet port quad s.old).sends }
{
    let others = s.view.ports.connected().without(port);
    out.push_on(others, Signal::Packet(quad));
    if s.list.len() < 252 {
        s.list.push(quad);
    }
}

/// What a node does with Grant, Packet or Done, heard on a port, numbered from 0; with a level
/// nothing. In SelfIdent a grant of the parent lets the node begin, and Done of a child says that
/// this child has identified itself. In SelfIdent and Ready a packet is kept and repeated. `out`
/// is empty, and then has what was sent.
pub fn ident_signal(s: &mut NodeState, port: u8, signal: Signal, out: &mut Sends)
    requires valid { IsValid s.old }
    requires exists { port < s.old.ports }
    requires empty { out.old ≡ [] }
    ensures state { s.new ≡ (ident_heard port signal s.old).state }
    ensures sends { out.new ≡ (ident_heard port signal s.old).sends }
{
    let mut outbox = Outbox::new();
    ident_signal_into(s, port, signal, &mut outbox);
    out.fill(&outbox);
}

/// Does what `ident_signal` does, and passes on what is sent.
#[tactic(auto, unfolding(port_state::specs::Heard::on_signal))]
pub fn ident_signal_into(s: &mut NodeState, port: u8, signal: Signal, out: &mut Outbox)
    requires valid { IsValid s.old }
    requires exists { port < s.old.ports }
    requires empty { out.old ≡ [] }
    ensures state { s.new ≡ (ident_heard port signal s.old).state }
    ensures sends { out.new ≡ (ident_heard port signal s.old).sends }
{
    let view = s.view.ports.get(usize::from(port));
    if !view.connected {
        return;
    }
    match (signal, s.view.phase) {
        (Signal::Grant, Phase::SelfIdent) => {
            if s.view.parent == Some(port) {
                s.view.granted = true;
            }
        }
        (Signal::Packet(quad), Phase::SelfIdent | Phase::Ready) => take_packet(s, port, quad, out),
        (Signal::Done, Phase::SelfIdent) => {
            if view.child {
                s.view.ports.name(port);
            }
        }
        _ => {}
    }
}

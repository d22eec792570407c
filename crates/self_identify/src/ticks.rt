//! The rows of S0 (Self-ID start), S1 (Self-ID grant), S2 (Self-ID receive) and S4 (Self-ID
//! transmit).
ghost use Rattle.std.specs.Prelude.{◌≡◌, ◌+◌, ◌*◌, ◌<◌, ◌≤◌, ◌++◌, [], length};
ghost use Rattle.port_state.specs.declared.signal.Phase.TheVariants.{SelfIdent};
ghost use Rattle.port_state.specs.Sends.{packets_on_every};
ghost use Rattle.self_id.specs.Group.{node_count};
ghost use Rattle.port_state.specs.Group.{own_group};
ghost use Rattle.port_state.specs.Valid.{IsValid, IsBounded};
ghost use Rattle.self_identify.specs.IdentStep.{ident_step, naming_step};

use crate::group;
use arrayvec::ArrayVec;
use phy_packet::is_packet_zero;
use port_state::states::NodeState;
use port_state::{Outbox, Phase, PortViews, Sends, Signal};

/// How many nodes a list of packets shows: so many of its quadlets are a packet zero.
pub fn node_count(list: &[u32]) -> usize
    ensures value { result ≡ node_count list.now }
    ensures few { result ≤ length list.now }
{
    list.iter().filter(|quad| is_packet_zero(**quad)).count()
}

/// Appends the quadlets of a node's own packets to its list.
fn append(list: &mut ArrayVec<u32, 252>, quads: &[u32])
    requires { length list.old.items + length quads.now ≤ 252 }
    ensures { list.new.items ≡ list.old.items ++ quads.now }
{
    for quad in quads {
        list.push(*quad);
    }
}

/// Sends each packet in turn on every connected port.
fn send_packets(quads: &[u32], ports: &PortViews, out: &mut Outbox)
    requires few { length ports.now ≤ 16 }
    requires packets { length quads.now ≤ 4 }
    requires room { length out.old + 16 * length quads.now ≤ 112 }
    ensures sends { out.new ≡ out.old ++ packets_on_every quads.now ports.now }
    ensures fits { length out.new ≤ length out.old + 16 * length quads.now }
{
    for quad in quads {
        out.push_on_every(ports, Signal::Packet(*quad));
    }
}

/// S4 to A0: the node's ID is the number of the nodes before it. It sends its packets on every
/// connected port, and Done to its parent.
#[inline(never)]
fn name_itself(s: &mut NodeState, out: &mut Outbox)
    requires bounded { IsBounded s.old }
    requires empty { out.old ≡ [] }
    ensures state { s.new ≡ (naming_step s.old).state }
    ensures sends { out.new ≡ (naming_step s.old).sends }
{
    let id = node_count(s.list.as_slice());
    if id > 62 {
        return;
    }
    let id = id as u8;
    let group = group::own_group(s, id);
    let packets = group.as_slice();
    if s.list.len() + packets.len() > 252 {
        return;
    }
    s.view.phase = Phase::Ready;
    s.view.id = Some(id);
    append(&mut s.list, packets);
    send_packets(packets, &s.view.ports, out);
    if let Some(parent) = s.view.parent {
        out.push(parent, Signal::Done);
    }
}

/// What a tick does in SelfIdent, once it has raised the timer. A node that was granted grants its
/// children one after the other, the lowest port first and each once, when the one before has said
/// Done; then it identifies itself. `out` is empty, and then has what was sent.
pub fn ident_tick(s: &mut NodeState, out: &mut Sends)
    requires valid { IsValid s.old }
    requires identifies { s.old.view.phase ≡ Phase.SelfIdent }
    requires empty { out.old ≡ [] }
    ensures state { s.new ≡ (ident_step s.old).state }
    ensures sends { out.new ≡ (ident_step s.old).sends }
{
    let mut outbox = Outbox::new();
    ident_tick_into(s, &mut outbox);
    out.fill(&outbox);
}

/// Does what `ident_tick` does, and passes on what is sent.
pub fn ident_tick_into(s: &mut NodeState, out: &mut Outbox)
    requires valid { IsValid s.old }
    requires identifies { s.old.view.phase ≡ Phase.SelfIdent }
    requires empty { out.old ≡ [] }
    ensures state { s.new ≡ (ident_step s.old).state }
    ensures sends { out.new ≡ (ident_step s.old).sends }
{
    if !s.view.granted {
        return;
    }
    let Some(port) = s.view.ports.next_child() else {
        name_itself(s, out);
        return;
    };
    if !s.view.ports.get(usize::from(port)).asked {
        s.view.ports.ask(port);
        out.push(port, Signal::Grant);
    }
}

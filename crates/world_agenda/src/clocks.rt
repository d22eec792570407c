//! In which turns the clocks of an agenda's nodes tick.
ghost use Rattle.std.specs.Prelude.{◌≡◌, ◌<◌, ◌≤◌, true, All, length, map};
ghost use Rattle.cabling.specs.NodeSet.{Holds, AgreeBut};
ghost use Rattle.port_state.specs.Clock.{TicksFor};
ghost use Rattle.world_agenda.specs.Now.{now_at};
ghost use Rattle.world_agenda.specs.Slow.{HasSlow};
ghost use Rattle.world_agenda.specs.Alone.{TickBut};

use crate::node::AgendaNode;
use cabling::NodeSet;
use port_state::PortMachine;

/// Takes a node into a set where something is so.
fn note(node: u8, is: bool, set: &mut NodeSet)
    requires { node < 63 }
    ensures others { AgreeBut set.old set.new node }
    ensures held { is ≡ true → Holds set.new node }
{
    if is {
        set.insert(node);
    }
}

/// The nodes whose clocks miss turns. At most 63 machines.
pub fn slow_nodes<M: PortMachine>(machines: &[M]) -> NodeSet
    requires few { length machines.now ≤ 63 }
    ensures { HasSlow result (map M.record_of machines.now) }
{
    let mut slow = NodeSet::none();
    for at in 0..machines.len() {
        note(at as u8, !machines[at].is_even(), &mut slow);
    }
    slow
}

/// For how many of the turns after `turns` turns no clock misses one, `most` at most; `slow` has each
/// node whose clock misses some.
pub fn ticking<M: PortMachine>(nodes: &[AgendaNode<M>], slow: NodeSet, turns: u32, most: u32) -> u32
    requires slow { HasSlow slow (now_at turns nodes.now) }
    ensures most { result ≤ most }
    ensures ticks { All (λ x. TicksFor result x.clock) (now_at turns nodes.now) }
{
    let mut ticks = most;
    let mut left = slow;
    while let Some(node) = left.take_least() {
        ticks = ticks.min(nodes[node as usize].ticks_at(turns));
    }
    ticks
}

/// The nodes whose clocks miss the turn after `turns` turns; `slow` has each node whose clock misses
/// some. At most 63 nodes.
pub fn missing<M: PortMachine>(nodes: &[AgendaNode<M>], slow: NodeSet, turns: u32) -> NodeSet
    requires few { length nodes.now ≤ 63 }
    requires slow { HasSlow slow (now_at turns nodes.now) }
    ensures { TickBut result (now_at turns nodes.now) }
{
    let mut missing = NodeSet::none();
    let mut left = slow;
    while let Some(node) = left.take_least() {
        note(node, nodes[node as usize].misses_at(turns), &mut missing);
    }
    missing
}

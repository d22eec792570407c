//! The two worlds side by side: after each step of a made run they show the same.
ghost use Rattle.std.specs.Prelude.{◌≡◌, ◌<◌, ◌≤◌, OnOk, length};
ghost use Rattle.cable_world.specs.Act.{IsAct};

use crate::nodes::{ONES, USUAL, agenda, world};
use cable_world::{Act, ActStop, WorldRun};
use cabling::{CableFault, End};
use port_state::{PortViews, View};
use std::alloc::Global;
use std::process::Abort;
use std::test::Fail;

const NODES: u8 = 6;

/// Numbers that look thrown.
#[derive(Drop)]
struct Dice {
    state: u32,
}

impl Dice {
    /// A number below another.
    fn below(&mut self, most: u8) -> u8
        requires { 0 < most }
        ensures { result < most }
    {
        self.state = self
            .state
            .wrapping_mul(1_664_525)
            .wrapping_add(1_013_904_223);
        ((self.state >> 16) % u32::from(most)) as u8
    }

    fn end(&mut self) -> End {
        End {
            node: self.below(NODES),
            port: self.below(4),
        }
    }

    fn act(&mut self) -> Act
        ensures { IsAct result }
    {
        match self.below(9) {
            0 => Act::Pull { end: self.end() },
            1 => Act::Reset {
                node: self.below(NODES),
            },
            2 => Act::Config {
                from: self.below(NODES),
                root_id: self.below(NODES),
                force: true,
                gap: None,
            },
            _ => Act::Plug {
                a: self.end(),
                b: self.end(),
            },
        }
    }

    /// How many turns go by.
    fn turns(&mut self) -> u32 {
        if self.below(4) == 0 {
            256 + u32::from(self.below(100))
        } else {
            u32::from(self.below(24))
        }
    }
}

/// Whether two nodes know the same of their ports.
fn ports_are_alike(is: &PortViews, was: &PortViews) -> bool {
    if is.len() != was.len() {
        return false;
    }
    for at in 0..is.len() {
        if is.get(at) != was.get(at) {
            return false;
        }
    }
    true
}

/// Whether two views show the same state.
fn states_are_alike(is: &View, was: &View) -> bool {
    is.phase == was.phase
        && ports_are_alike(&is.ports, &was.ports)
        && is.parent == was.parent
        && is.granted == was.granted
        && is.id == was.id
        && is.initiated == was.initiated
        && is.force == was.force
        && is.next_force == was.next_force
        && is.timed_out == was.timed_out
}

/// Whether they show the same counts.
fn counts_are_alike(is: &View, was: &View) -> bool {
    is.timer == was.timer
        && is.wait == was.wait
        && is.draws == was.draws
        && is.first_draws == was.first_draws
        && is.gap == was.gap
        && is.next_gap == was.next_gap
        && is.resets == was.resets
}

/// Whether one node shows the same in both worlds.
fn node_is_alike<V: WorldRun, W: WorldRun>(plain: &V, agenda: &W, node: u8) -> bool
    requires plain { node < length (V.world plain.now).nodes }
    requires agenda { node < length (W.world agenda.now).nodes }
{
    let was = plain.view(node);
    let is = agenda.view(node);
    states_are_alike(&is, &was)
        && counts_are_alike(&is, &was)
        && agenda.list(node) == plain.list(node)
        && agenda.attrs(node) == plain.attrs(node)
        && agenda.changed(node) == plain.changed(node)
}

/// Every node does.
fn are_alike<V: WorldRun, W: WorldRun>(rt: &impl Abort, plain: &V, agenda: &W)
    requires plain { length (V.world plain.now).nodes ≡ 6 }
    requires agenda { length (W.world agenda.now).nodes ≡ 6 }
{
    assert!(rt; agenda.turns() == plain.turns());
    for node in 0..NODES {
        assert!(rt; node_is_alike(plain, agenda, node), "node {node}");
    }
}

/// Does an act, and tells what it was refused for.
fn act_in<W: WorldRun>(world: &mut W, act: &Act) -> Result<Option<CableFault>, Fail>
    requires { IsAct act.now }
    ensures { OnOk result (length (W.world world.new).nodes ≡ length (W.world world.old).nodes) }
{
    match world.act(act) {
        Ok(()) => Ok(None),
        Err(stop) => match stop {
            ActStop::Fault(fault) => Ok(Some(fault)),
            ActStop::Memory(stop) => Err(Fail::from(stop)),
        },
    }
}

/// Holds a wire, and tells what this was refused for.
fn hold_in<W: WorldRun>(world: &mut W, end: End, turns: u16) -> Result<Option<CableFault>, Fail>
    ensures { OnOk result (length (W.world world.new).nodes ≡ length (W.world world.old).nodes) }
{
    match world.hold(end, turns) {
        Ok(()) => Ok(None),
        Err(stop) => match stop {
            ActStop::Fault(fault) => Ok(Some(fault)),
            ActStop::Memory(stop) => Err(Fail::from(stop)),
        },
    }
}

/// Does turns.
fn turns_in<W: WorldRun>(rt: &impl Abort, world: &mut W, count: u32) -> Result<(), Fail>
    ensures { OnOk result (length (W.world world.new).nodes ≡ length (W.world world.old).nodes) }
{
    assert!(rt; world.turns() <= 1_000_000 && count <= 1_000_000);
    world.run_turns(count)?;
    Ok(())
}

/// Does one thing in both worlds, of which each does it or refuses it for the same reason.
fn step_both<V: WorldRun, W: WorldRun>(
    rt: &impl Abort,
    plain: &mut V,
    agenda: &mut W,
    dice: &mut Dice,
) -> Result<(), Fail>
    ensures plain { OnOk result (length (V.world plain.new).nodes
        ≡ length (V.world plain.old).nodes) }
    ensures agenda { OnOk result (length (W.world agenda.new).nodes
        ≡ length (W.world agenda.old).nodes) }
{
    match dice.below(8) {
        0..=2 => {
            let act = dice.act();
            let was = act_in(plain, &act)?;
            let is = act_in(agenda, &act)?;
            assert!(rt; is == was);
        }
        3 => {
            let end = dice.end();
            let turns = u16::from(dice.below(40));
            let was = hold_in(plain, end, turns)?;
            let is = hold_in(agenda, end, turns)?;
            assert!(rt; is == was);
        }
        _ => {
            let count = dice.turns();
            turns_in(rt, plain, count)?;
            turns_in(rt, agenda, count)?;
        }
    }
    Ok(())
}

/// Does so many things in both worlds, and compares them after each.
fn go_abreast<V: WorldRun, W: WorldRun>(
    rt: &impl Abort,
    plain: &mut V,
    agenda: &mut W,
    dice: &mut Dice,
    steps: u32,
) -> Result<(), Fail>
    requires plain { length (V.world plain.old).nodes ≡ 6 }
    requires agenda { length (W.world agenda.old).nodes ≡ 6 }
{
    for _ in 0..steps {
        step_both(rt, plain, agenda, dice)?;
        are_alike(rt, plain, agenda);
    }
    Ok(())
}

/// Six nodes whose cables delay by at most `d` turns go abreast in two worlds.
fn go_both(rt: &impl Abort, alloc: Global, d: u8, packed: bool) -> Result<(), Fail> {
    let nodes = [USUAL, ONES, USUAL, USUAL, ONES, USUAL];
    let mut plain = world(rt, alloc, &nodes, d, packed)?;
    let mut agenda = agenda(rt, alloc, &nodes, d, packed)?;
    let mut dice = Dice {
        state: u32::from(d),
    };
    go_abreast(rt, &mut plain, &mut agenda, &mut dice, 300)
}

#[test]
fn two_worlds_go_abreast(rt: HostRuntime) -> Result<(), Fail> {
    for d in [1, 4, 16] {
        for packed in [false, true] {
            go_both(&rt, rt.alloc(), d, packed)?;
        }
    }
    Ok(())
}

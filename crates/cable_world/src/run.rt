//! What every world does.
ghost use Rattle.std.specs.Prelude.{◌≡◌, ◌+◌, ◌<◌, ◌≤◌, ◌↔◌, Bool, Some, None, length, drop, slice_get, IsTrue, IsFalse, IsErr, IsSomeAnd, OnOk};
ghost use Rattle.port_state.specs.Clock.{is_even, misses};
ghost use Rattle.port_state.specs.Group.{shown_attrs};
ghost use Rattle.cable_world.specs.World.{CableWorld, wire_of};
ghost use Rattle.cable_world.specs.Turn.{turn, turns_after};
ghost use Rattle.cable_world.specs.Act.{ActLeads, IsAct, act_fault, hold, hold_fault};
ghost use Rattle.cable_world.specs.Run.{IsReached};
ghost use Rattle.cable_world.specs.Unchanged.{TurnsPass};
ghost use Rattle.cable_world.specs.Answer.{IfFault, IsMemory};

use crate::act::{Act, ActStop};
use crate::signals::Signals;
use cabling::{Cabling, End, OutOfMemory};
use port_state::{Timing, View};
use self_id::Attrs;

/// A world of nodes and cables, whose clock goes in turns.
///
/// What it keeps stands for a world as `specs/World.antt` has it, and each call does to that world
/// what the definition of its name says. After want of memory in `act`, `turn` or `run_turns` the
/// world is spent: these calls and `hold` then answer want of memory and change nothing. It is
/// spent in no other case.
pub trait WorldRun {
    ghost world: { Self → CableWorld };

    ghost is_spent: { Self → Bool };

    /// Does an act, between two turns.
    ///
    /// `Plug` is refused as plugging a cable into the cabling is, `Pull` as pulling one out of it;
    /// `Reset` and `Config` are refused with `NoNode`, at port 0, where the node does not exist. A
    /// refusal changes nothing. The numbers of a `Config` have 6 bits, and it has R or T set.
    fn act(&mut self, act: &Act) -> Result<(), ActStop>
        requires { IsAct act.now }
        ensures done { OnOk result (ActLeads act.now (world self.old) (world self.new)) }
        ensures accepted { OnOk result (act_fault act.now (world self.old) ≡ None) }
        ensures passed { OnOk result (TurnsPass 0 (world self.old) (world self.new)) }
        ensures refused { IfFault result (λ f. act_fault act.now (world self.old) ≡ Some f) }
        ensures same { IfFault result (λ f. world self.new ≡ world self.old) }
        ensures memory { IsMemory result → IsFalse (is_spent self.old) →
            act_fault act.now (world self.old) ≡ None }
        ensures spent { IsMemory result ↔ IsTrue (is_spent self.new) }
        ensures was_spent { IsTrue (is_spent self.old) →
            IsMemory result × (world self.new ≡ world self.old) };

    /// Holds the wire that leaves an end during the next `turns` turns, in place of what an earlier
    /// hold of it has left. A held wire gives its signals only when the oldest has been under way
    /// for as many turns as a cable may delay it.
    ///
    /// It is refused, in this order, with `NoNode`, `NoPort` or `NotPlugged`; a refusal changes
    /// nothing. It takes no memory: want of memory is the answer of a spent world alone.
    fn hold(&mut self, end: End, turns: u16) -> Result<(), ActStop>
        ensures done { OnOk result (world self.new ≡ hold end turns (world self.old)) }
        ensures accepted { OnOk result (hold_fault end (world self.old) ≡ None) }
        ensures passed { OnOk result (TurnsPass 0 (world self.old) (world self.new)) }
        ensures refused { IfFault result (λ f. hold_fault end (world self.old) ≡ Some f) }
        ensures same { IfFault result (λ f. world self.new ≡ world self.old) }
        ensures spent { IsMemory result ↔ IsTrue (is_spent self.old) }
        ensures stays { is_spent self.new ≡ is_spent self.old }
        ensures was_spent { IsTrue (is_spent self.old) → world self.new ≡ world self.old };

    /// Does one turn. Fewer than 4,000,000,000 were done before.
    fn turn(&mut self) -> Result<(), OutOfMemory>
        requires { (world self.old).turns < 4000000000 }
        ensures done { OnOk result (world self.new ≡ turn (world self.old)) }
        ensures passed { OnOk result (TurnsPass 1 (world self.old) (world self.new)) }
        ensures spent { IsErr result ↔ IsTrue (is_spent self.new) }
        ensures was_spent { IsTrue (is_spent self.old) →
            IsErr result × (world self.new ≡ world self.old) };

    /// Does `count` turns. With those done before they are at most 4,000,000,000.
    fn run_turns(&mut self, count: u32) -> Result<(), OutOfMemory>
        requires { (world self.old).turns + count ≤ 4000000000 }
        ensures done { OnOk result (world self.new ≡ turns_after count (world self.old)) }
        ensures passed { OnOk result (TurnsPass count (world self.old) (world self.new)) }
        ensures spent { IsErr result ↔ IsTrue (is_spent self.new) }
        ensures was_spent { IsTrue (is_spent self.old) →
            IsErr result × (world self.new ≡ world self.old) };

    /// By how many turns a cable delays a signal at most, 1 to 16.
    fn delay(&self) -> u8
        ensures { result ≡ (world self.now).delay };

    /// No node has longer times than these, which bound how many turns a world takes to settle.
    fn longest(&self) -> Timing
        ensures { result ≡ (world self.now).longest };

    /// The number of turns done.
    fn turns(&self) -> u32
        ensures { result ≡ (world self.now).turns };

    /// The nodes with their ports, and the cables between them.
    fn cabling(&self) -> &Cabling
        ensures { result.now ≡ (world self.now).cabling };

    /// What a node, by its number, shows of its state. The node exists.
    fn view(&self, node: u8) -> View
        requires { node < length (world self.now).nodes }
        ensures { IsSomeAnd (slice_get (world self.now).nodes node) (λ x. result ≡ x.state.view) };

    /// The first quadlets of the self-ID packets that a node heard or sent since its last reset.
    /// The node exists.
    fn list(&self, node: u8) -> &[u32]
        requires { node < length (world self.now).nodes }
        ensures { IsSomeAnd (slice_get (world self.now).nodes node)
            (λ x. result.now ≡ x.state.list.items) };

    /// The attributes that a node shows, with the gap count and the initiated bit of its view. The
    /// node exists.
    fn attrs(&self, node: u8) -> Attrs
        requires { node < length (world self.now).nodes }
        ensures { IsSomeAnd (slice_get (world self.now).nodes node)
            (λ x. result ≡ shown_attrs x.state) };

    /// The number of turns done at the end of the last turn or act after which a node's list was
    /// not the list before it, or 0 where there was none. A turn counts itself. The node exists.
    fn changed(&self, node: u8) -> u32
        requires { node < length (world self.now).nodes }
        ensures { slice_get (world self.now).changed node ≡ Some result };

    /// Whether the clock of a node misses no turn. The node exists.
    fn is_even(&self, node: u8) -> bool
        requires { node < length (world self.now).nodes }
        ensures { IsSomeAnd (slice_get (world self.now).nodes node)
            (λ x. result ≡ is_even x.clock) };

    /// Whether the clock of a node misses the next turn. The node exists.
    fn misses(&self, node: u8) -> bool
        requires { node < length (world self.now).nodes }
        ensures { IsSomeAnd (slice_get (world self.now).nodes node)
            (λ x. result ≡ misses x.clock) };

    /// Whether a call found no memory.
    fn spent(&self) -> bool
        ensures { result ≡ is_spent self.now };

    // A world that isn't spent comes of a power-on world by acts, holds and turns, and so is lawful
    // (`worlds_stay_lawful`), and each of its nodes can be forced.
    ghost reached: { (w : Self) → IsFalse (is_spent w) → ∥ IsReached (world w) ∥₁ };
}

/// A world that shows what is under way on its wires.
pub trait ShowsWires: WorldRun {
    /// How many signals are under way on the wire that leaves an end: none where there is no such end,
    /// or no cable at it.
    fn count_under_way(&self, end: End) -> usize
        ensures { result ≡ length (wire_of (Self.world self.now) end).signals };

    /// What is under way on the wire that leaves an end, behind the `past` oldest signals: the oldest
    /// first, each with the number of turns for which it has been. It is nothing from `count_under_way`
    /// on.
    fn under_way(&self, end: End, past: usize) -> Signals<'_>
        ensures { result ≡ drop past (wire_of (Self.world self.now) end).signals };

    /// Counts what is under way on the wires that leave a node, if there is such a node, and changes
    /// nothing that is told of the world. Until the next turn `count_under_way`, and `under_way` behind
    /// what is counted, then go over what came later alone.
    fn tally(&mut self, node: u8)
        ensures same { Self.world self.new ≡ Self.world self.old }
        ensures spent { Self.is_spent self.new ≡ Self.is_spent self.old };
}

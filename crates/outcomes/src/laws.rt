//! Laws of what components come to. Each function is a fact for the crates above, which call it.
ghost use Rattle.convergence.specs.Kept.{HoldsFromPowerOn, IsKept};
ghost use Rattle.outcomes.specs.Forced.{ResetsSpread, EntriesTakeOver, ForcedNodesBecomeRoots};
ghost use Rattle.outcomes.specs.Forced.{ForcedRootsHaveWalks, AllLeadToForcedRoots, NobodyDraws};
ghost use Rattle.outcomes.specs.Forced.{ConfigsBeginAnew, ConfigsNameRoots, ConfigsGiveGaps};
ghost use Rattle.outcomes.specs.Headline.{EveryBusSettles, AnyBusCanBeLeftAlone};
ghost use Rattle.outcomes.specs.Holders.{SelfIdentifyGoesOn};
ghost use Rattle.outcomes.specs.Identify.{IsIdentifying};
ghost use Rattle.outcomes.specs.Lists.{ListsFollow};
ghost use Rattle.outcomes.specs.NodeMarks.{RecordsAreMarked, NodesAwaitOneChild};
ghost use Rattle.outcomes.specs.Numbered.{SettlingBegins, TurnsKeepSettling, HoldsKeepSettling};
ghost use Rattle.outcomes.specs.Numbered.{IsNumbering, NextHasItsPrefix, NextHasRoom, RestIsTree};
ghost use Rattle.outcomes.specs.Numbered.{TurnsKeepRest, HoldsKeepRest, RestKeepsTree};
ghost use Rattle.outcomes.specs.Numbered.{NodesGetReady, TreesComeToRest, TreesAreThere};
ghost use Rattle.outcomes.specs.QuietTurns.{QuietTurnsAreEnough, InRangeIsEnough};
ghost use Rattle.outcomes.specs.RootWalk.{RootsHaveWalks, NamedRootsAreOutcomes, WalksStay};
ghost use Rattle.outcomes.specs.Settled.{LoopsComeOut, EveryComponentSettles, ResetsAreDoneByThen};
ghost use Rattle.outcomes.specs.Settled.{EveryQuietRunSettles};
ghost use Rattle.outcomes.specs.Settled.{ComponentsStaySettled, TreesStay};
ghost use Rattle.outcomes.specs.Settled.{ForcedRootsSettle, IdsNameOneNode, ConfigsMoveRoots};
ghost use Rattle.outcomes.specs.Settled.{ConfigsSetGaps, PacketsSetGaps};

use cabling::{components_exist, cores_exist};

/// The theorem: a bus that is left alone settles. Whatever came before, once `turns_to_settle`
/// turns are done and no act comes among them, each component is a loop, a tree or a contention,
/// whatever holds are placed between the turns. Each bus can be left alone for so long.
pub fn every_bus_settles()
    ensures settles { EveryBusSettles }
    ensures can_be_left_alone { AnyBusCanBeLeftAlone }
{
    components_settle();
}

/// What is so of self identify, at each node and at the two ends of each cable, is so at power-on,
/// and turns, holds and acts of a lawful world keep it.
pub fn worlds_stay_identifying()
    ensures { IsKept IsIdentifying }
{}

/// In every world that comes of power-on each record fits the progress of self identify: a node has
/// an ID in A0 alone, is granted in self identify and A0 alone, and asks its children one after the
/// other, in rising port order; its list is empty before. It awaits one child at most.
pub fn records_fit_self_identify()
    ensures marks { RecordsAreMarked }
    ensures one_awaited { NodesAwaitOneChild }
{}

/// In every world that comes of power-on, on each cable whose two ends are both in self identify or
/// A0, the list of one end, followed by the packets under way to it, is the list of the other end,
/// and no packet is under way to that other end.
pub fn lists_follow()
    ensures { HoldsFromPowerOn ListsFollow }
{}

/// Where all nodes of a component of such a world are in self identify or A0, and one isn't in A0,
/// exactly one of these is there: one Grant under way, one Done under way, or one granted node
/// in self identify that waits for no child that it asked.
pub fn self_identify_goes_on()
    ensures { SelfIdentifyGoesOn }
{}

/// Once resets are over, the cables show a tree from a component's root, whose parent ports are
/// those of the nodes. Its list is the nodes' own groups, each with the node's place as ID.
pub fn roots_have_walks()
    ensures { RootsHaveWalks }
{
    components_exist();
    cores_exist();
}

/// Where all nodes below a root have their places as IDs, and the tree's list, the component has
/// come to that tree.
pub fn named_roots_are_outcomes()
    ensures { NamedRootsAreOutcomes }
{
    components_exist();
    cores_exist();
}

/// A world in which a component has the same ports, and shows the same attributes, has the same
/// walk there.
pub fn walks_stay()
    ensures { WalksStay }
{
    components_exist();
    cores_exist();
}

/// A reset that has just begun spreads: after (n - 1) d quiet turns all of the component are
/// in R0, and nobody leaves it before 64 d turns are done. After n d turns each has what it takes
/// over at its entry.
pub fn resets_spread()
    ensures spread { ResetsSpread }
    ensures taken { EntriesTakeOver }
{}

/// Where of a fresh component without loop one node alone waits to become root, and is given time
/// enough for it, it does: at each turn after `forced_turns`, which is 2 n d + H + d where all clocks
/// are even and H is the longest hold, it is the root, and each other node has a parent port.
/// The cables show its tree. From n d turns on each node past T0 has its port towards it for parent
/// port, and nobody draws a coin.
pub fn waiting_nodes_become_roots()
    ensures root { ForcedNodesBecomeRoots }
    ensures walk { ForcedRootsHaveWalks }
    ensures ways { AllLeadToForcedRoots }
    ensures undrawn { NobodyDraws }
{
    components_exist();
}

/// A configuration packet with R set begins a reset in a component that had none. The node with the
/// ID that it names waits alone to become root, and each node takes over the gap count that it
/// gives.
pub fn configs_choose_roots()
    ensures fresh { ConfigsBeginAnew }
    ensures waits { ConfigsNameRoots }
    ensures gaps { ConfigsGiveGaps }
{}

/// Self identify goes in the order of the walk. A component whose nodes have all come to self
/// identify begins with empty lists; after each turn each list that matters is what the first nodes
/// of the walk emitted. The next of them always has room for its group.
pub fn walks_are_numbered()
    ensures begins { SettlingBegins }
    ensures turn { TurnsKeepSettling }
    ensures hold { HoldsKeepSettling }
    ensures prefix { NextHasItsPrefix }
    ensures room { NextHasRoom }
{
    components_exist();
}

/// Such a component at rest, with all nodes in A0 and nothing under way, has come to its tree, and
/// stays at rest in quiet turns.
pub fn trees_rest()
    ensures tree { RestIsTree }
    ensures turn { TurnsKeepRest }
    ensures hold { HoldsKeepRest }
    ensures after_turns { RestKeepsTree }
{}

/// From such a component of n nodes all nodes come to A0 within (4 n + 1) e turns, and to rest
/// within 5 n e; after 5 n e turns it has its tree, and keeps it. Where all clocks are even, e is d,
/// and else d + 1.
pub fn trees_settle()
    ensures ready { NodesGetReady }
    ensures rest { TreesComeToRest }
    ensures tree { TreesAreThere }
{}

/// In every component all of whose nodes are in self identify or A0 lists follow the walk from its
/// root: so it is at power-on, and turns, holds and acts of a lawful world keep it so.
pub fn worlds_stay_numbering()
    ensures { IsKept IsNumbering }
{}

/// Every component with a loop comes to the outcome Loop: after `turns_to_loops`, which is n d + H +
/// d + T + 1 where all clocks are even, H is the longest hold and T the longest timeout, each node of
/// its core reports the timeout, and no node of it has an ID.
pub fn loops_come_out()
    ensures { LoopsComeOut }
{}

/// In as many quiet turns as a world is given to settle, whatever holds are placed before, between
/// and after them, every component comes to an outcome, and no node is in R0 or R1. So every
/// component has an outcome after each run of holds and turns that has so many turns.
pub fn components_settle()
    ensures settled { EveryComponentSettles }
    ensures runs { EveryQuietRunSettles }
    ensures done { ResetsAreDoneByThen }
{
    components_exist();
    cores_exist();
}

/// For as many quiet turns as a world is given to settle, `quiet_turns` of its number of nodes and
/// d are enough where its times are short enough for that, and so where the times of nodes are in
/// their ranges.
pub fn quiet_turns_are_enough()
    ensures short { QuietTurnsAreEnough }
    ensures in_range { InRangeIsEnough }
{}

/// Once as many quiet turns as `components_settle` counts were done, every component has an outcome
/// at each later moment, whatever holds and turns follow.
pub fn components_stay_settled()
    ensures { ComponentsStaySettled }
{
    components_exist();
    cores_exist();
}

/// A component of a world that comes of power-on, and that has come to a tree, stays in it, with
/// the same root, IDs and lists, in every hold and turn. So it does in every act that resets none
/// of its nodes (`acts_touch_their_component` of `world_laws`).
pub fn trees_stay()
    ensures turns { TreesStay }
{
    components_exist();
}

/// Where of a fresh component without loop one node alone waits to become root, and is given time
/// enough for it, it comes to a tree with that root in as many quiet turns. So it does after a
/// configuration packet with R set that names one such node; from n d turns on each node has the
/// gap count that the packet gave. In a tree each ID names one node.
pub fn forced_roots_settle()
    ensures forced { ForcedRootsSettle }
    ensures names { IdsNameOneNode }
    ensures config { ConfigsMoveRoots }
    ensures gaps { ConfigsSetGaps }
    ensures packets { PacketsSetGaps }
{
    components_exist();
}

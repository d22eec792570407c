//! Laws of worlds. Each function is a fact for whoever reads or calls it.
ghost use Rattle.world_laws.specs.Arrival.{CablesStay, SignalsArrive};
ghost use Rattle.world_laws.specs.Arrival.{SentSignalsArrive, SignalsKeepTheirOrder};
ghost use Rattle.world_laws.specs.ByNumber.{ActsByNumber};
ghost use Rattle.world_laws.specs.LastChanges.{TurnsNoteChanges, ActsNoteChanges};
ghost use Rattle.world_laws.specs.Freshness.{PowerOnIsFresh, ActsMakeFresh, ActsMakeFreshOnceSettled};
ghost use Rattle.world_laws.specs.Freshness.{FreshRootsSettle, FirstRootsSettle};
ghost use Rattle.world_laws.specs.Touched.{TouchesAreTested, TouchedNodesReset, ActsTouchTheirComponent, UntouchedComponentsStay, UntouchedTreesStay};
ghost use Rattle.world_laws.specs.DoneMilestone.{EntriesEnd, NoEntryStays, DoneOnceNoneEnters};
ghost use Rattle.world_laws.specs.LoopMilestone.{LoopsComeOutOnceDone, LoopsComeOutByThen};
ghost use Rattle.world_laws.specs.RestMilestone.{TreesRestOnceDecided, TreesRestByThen};
ghost use Rattle.world_laws.specs.OnePair.{RivalsStayAlone, RivalsAreAloneByThen};
ghost use Rattle.world_laws.specs.ReadyPrefix.{ReadyNodesAreFirst, IdentifyingNodesHaveTurns};
ghost use Rattle.world_laws.specs.SlotCabling.{EachBusTreeIsCabled, CabledTreesAreBusTrees};
ghost use Rattle.world_laws.specs.SlotCabling.{AcceptedListsAreEmitted};
ghost use Rattle.world_laws.specs.SeenTrees.{SeenTreesAreBusTrees, SeenListsHaveOneTree};
ghost use Rattle.world_laws.specs.WiringSlots.{PortsAreSlots, SlotsShowTheSame};
ghost use Rattle.world_laws.specs.WiringSlots.{SeenListsAreEmitted, SettledListsAreEmitted};
ghost use Rattle.world_laws.specs.TreeText.{TextsTellTrees, AlikeTreesHaveOneText, LinesTellNodes};

use cabling::components_exist;

/// The wires deliver. In every run from a world that comes of power-on, in which the cable isn't
/// pulled, each signal that is under way over it is heard at the far end by the time that it has
/// been under way for d turns, right behind those before it. What is heard there, and then what is
/// under way, is what was under way, and then what the node at the near end sent in the run, by its
/// own steps: nothing is lost, heard twice or heard out of order. So what was sent d turns ago or
/// before has been heard.
pub fn signals_arrive()
    ensures arrive { SignalsArrive }
    ensures order { SignalsKeepTheirOrder }
    ensures sent { SentSignalsArrive }
    ensures joined { CablesStay }
{}

/// What an act of a lawful world makes of each node, of each wire and of the cables. Plugging adds
/// one cable and pulling takes one out; both its nodes reset the bus, and on each of their cables a
/// Reset is sent behind what is under way. A reset does so at one node. Of a configuration packet
/// the nodes of the component hear, and the one that it is sent from resets the bus. All other
/// nodes, with their cables and their wires, are as they were.
pub fn acts_by_number()
    ensures { ActsByNumber }
{}

/// When a node's list last changed: after a turn it is the number of turns done, with this one, and
/// after an act the number of turns done, where the list isn't what it was; else it is as it was.
pub fn changes_are_noted()
    ensures turns { TurnsNoteChanges }
    ensures acts { ActsNoteChanges }
{}

/// An act resets the node that it names, or both nodes of the cable that it plugs or pulls: each of
/// them has then just begun a reset. A component of whose nodes it resets none was one before, each
/// of its nodes is as it was, with its cables and wires, and a tree that it had come to stays.
pub fn acts_touch_their_component()
    ensures tested { TouchesAreTested }
    ensures resets { TouchedNodesReset }
    ensures others { ActsTouchTheirComponent }
    ensures component { UntouchedComponentsStay }
    ensures trees { UntouchedTreesStay }
{}

/// Before the first turn every component is fresh, whatever acts came. Later, before the next turn,
/// acts make a component fresh that they touch, where none of its nodes was in R0 or R1: so
/// wherever a world was given the quiet turns to settle. Of a reset that begins while another is
/// going on nothing is claimed.
pub fn acts_make_fresh()
    ensures first { PowerOnIsFresh }
    ensures later { ActsMakeFresh }
    ensures settled { ActsMakeFreshOnceSettled }
{}

/// Where of a fresh component without loop one node alone waits to become root, and is given time
/// enough for it, it comes to a tree with that root in as many quiet turns as a world is given to
/// settle. So does each such component that was cabled before the first turn.
pub fn waiting_roots_settle()
    ensures fresh { FreshRootsSettle }
    ensures first { FirstRootsSettle }
{}

/// Once resets are over a component has one pair of nodes at most that are each other's candidate
/// parents, and where it has one it has no root. So it is after n d quiet turns.
pub fn rivals_are_alone()
    ensures once_over { RivalsStayAlone }
    ensures after_turns { RivalsAreAloneByThen }
{}

/// After n d quiet turns no later one makes a node enter R0, and so it stays. From such a world on
/// no node is in R0 or R1 after H + d turns, or one more where a clock misses turns. H is the longest
/// hold of the world.
pub fn entries_end()
    ensures after { EntriesEnd }
    ensures stays { NoEntryStays }
    ensures done { DoneOnceNoneEnters }
{}

/// From T + 1 turns after resets are done on, where T is the longest timeout of the world, each
/// node of a loop reports that the configuration timed out, and no node of its component has an ID.
pub fn loops_are_out()
    ensures once_done { LoopsComeOutOnceDone }
    ensures reached { LoopsComeOutByThen }
{}

/// The nodes of a tree that have identified themselves are the first of its walk. So it is in each
/// world that comes of power-on, of each component all of whose nodes identify themselves, or have:
/// it has a root, and the cables show its tree from there.
pub fn ready_nodes_are_first()
    ensures walk { ReadyNodesAreFirst }
    ensures reached { IdentifyingNodesHaveTurns }
{
    components_exist();
}

/// From 315 `seen_turns` after trees are decided on, each component without loop is at rest, with all
/// its nodes in A0 and no Grant, packet or Done under way, or two of its nodes contend, with 32
/// equal draws.
pub fn trees_are_at_rest()
    ensures once_decided { TreesRestOnceDecided }
    ensures reached { TreesRestByThen }
{}

/// Whatever tree a cabling shows is a bus tree, so that its list is accepted, and it is the one
/// tree whose list that is.
pub fn seen_trees_are_bus_trees()
    ensures bus { SeenTreesAreBusTrees }
    ensures list { SeenListsHaveOneTree }
{}

/// The bus trees are what cablings show, where each slot of a node has a port or none: each bus
/// tree is shown by a cabling of its nodes alone, and each tree that a cabling shows is a bus tree.
/// So the lists that reading accepts are those that some cabling emits.
pub fn bus_trees_are_cabled()
    ensures each { EachBusTreeIsCabled }
    ensures only { CabledTreesAreBusTrees }
    ensures lists { AcceptedListsAreEmitted }
{}

/// The cables of a wiring, which scripts have, are cables of slots: each node has its ports in its
/// first slots, and no port in the others. From each node both show the same trees. So the list that
/// each node of a settled component has is one that some cabling of slots emits, and that cabling
/// shows the tree that the cables of the world show.
pub fn wirings_are_slots()
    ensures cabling { PortsAreSlots }
    ensures same { SlotsShowTheSame }
    ensures lists { SeenListsAreEmitted }
    ensures settled { SettledListsAreEmitted }
{}

/// What the text of a bus tree tells: two bus trees of one standard with the same text are the same,
/// node by node and slot by slot, but for the nodes' delays and the bits that further packets carry
/// unread. No text has these: trees that differ in nothing else have one text. A node's line tells
/// its ID, its attributes but the delay, its slots, and the IDs that they lead to.
pub fn texts_tell_trees()
    ensures trees { TextsTellTrees }
    ensures alike { AlikeTreesHaveOneText }
    ensures lines { LinesTellNodes }
{}

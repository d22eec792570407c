//! Laws of traces and of dumps.
ghost use Rattle.script_trace.specs.OneTrace.{ScriptsHaveOneTrace, TracedScriptsAreTold, TraceFaultsAreTold, RunsHaveTraces};
ghost use Rattle.script_trace.specs.OneTelling.{RunsAreToldOnce, RunsAreTold};
ghost use Rattle.script_trace.specs.Shown.{TurnsShowWhatIsSent};
ghost use Rattle.script_trace.specs.ActShown.{ActsShowTheirResets};
ghost use Rattle.script_trace.specs.NodeShown.{TurnsShowEachNode, MissedTurnsAreShown, ActsShowEachNode};
ghost use Rattle.script_trace.specs.waves.OneDump.{ScriptsHaveOneDump, DumpedScriptsAreTold, DumpFaultsAreTold, RunsHaveDumps};

use cable_world::{acts_keep, turn_by_number, worlds_stay_lawful};
use script_told::scripts_tell_one_thing;
use topology_stack::one_tree;
use world_laws::acts_by_number;

/// A law: a script has one trace. It has one where it has a text, and else its fault.
pub fn scripts_have_one_trace()
    ensures one { ScriptsHaveOneTrace }
    ensures told { TracedScriptsAreTold }
    ensures fault { TraceFaultsAreTold }
    ensures some { RunsHaveTraces }
{
    one_tree();
    acts_keep();
}

/// A law: in whatever way it is told what happens in a run, there is one thing to tell.
pub fn runs_are_told_once()
    ensures one { RunsAreToldOnce }
    ensures some { RunsAreTold }
{
    one_tree();
    acts_keep();
}

/// A law: a script has one dump. It has one where it has a text, and else its fault.
pub fn scripts_have_one_dump()
    ensures one { ScriptsHaveOneDump }
    ensures told { DumpedScriptsAreTold }
    ensures fault { DumpFaultsAreTold }
    ensures some { RunsHaveDumps }
{
    scripts_tell_one_thing();
    runs_are_told_once();
}

/// A law: the signals that a trace shows of a turn on a port are those that the node's step of this
/// turn sends there, in order, and no other.
pub fn turns_show_what_is_sent()
    ensures { TurnsShowWhatIsSent }
{
    turn_by_number();
}

/// A law: of each act that isn't refused a trace shows one BUS_RESET on each cable of each node at which
/// the act begins a reset, and no other signal. What was under way on a cable that is pulled is gone.
pub fn acts_show_their_resets()
    ensures { ActsShowTheirResets }
{
    acts_by_number();
    worlds_stay_lawful();
}

/// A law: the lines of a turn, and those of an act, have for each node those of what is other then: the
/// state that it entered, its roles, its coin and its ID, and then what it sent. In a turn that is what
/// its step of the turn changed. Before them stands a line for a turn that the node's clock misses.
pub fn each_node_is_shown()
    ensures turns { TurnsShowEachNode }
    ensures missed { MissedTurnsAreShown }
    ensures acts { ActsShowEachNode }
{
    turn_by_number();
}

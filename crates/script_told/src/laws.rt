//! Laws of what a script tells.
ghost use Rattle.script_told.specs.OneTold.{ScriptsHaveOneRun, ScriptsTellOneThing};
ghost use Rattle.script_told.specs.EachReport.{ReportsAreSettled};
ghost use Rattle.script_told.specs.ScriptEvents.{ScriptsAreRuns};
ghost use Rattle.script_told.specs.Reached.{ScriptWorldsAreReached, ScriptsConverge};
ghost use Rattle.script_told.specs.SomeAnswer.{CommandsHaveAnswers, BusesSettle};
ghost use Rattle.script_told.specs.SomeManager.{ReportedTreesAreManaged};

use cable_world::{acts_keep, outcomes_are_one};
use cabling::components_exist;
use outcomes::every_bus_settles;
use script_text::{maps_have_texts, settled_worlds_have_texts};
use settle::{reports_are_outcomes, reports_are_read_back};
use topology_stack::one_tree;

/// A law: no script has two runs, so it tells one text at most, or one fault of one line.
pub fn scripts_tell_one_thing()
    ensures run { ScriptsHaveOneRun }
    ensures told { ScriptsTellOneThing }
{
    one_tree();
    acts_keep();
}

/// A law: each command of a script that declares nothing does events to the world of its bus. Lines
/// that take time or ask have no act among them, and a `pull` alone pulls a cable. So between any two
/// such lines of a script there is a run, to which the laws of worlds apply.
pub fn scripts_are_runs()
    ensures { ScriptsAreRuns }
{
    one_tree();
    acts_keep();
}

/// A law: before and behind each command of a script's run the world comes of power-on by acts, holds
/// and turns. So a script that is cut behind any of its commands settles where it is left alone.
pub fn script_worlds_are_reached()
    ensures reached { ScriptWorldsAreReached }
    ensures converge { ScriptsConverge }
{
    one_tree();
    acts_keep();
    every_bus_settles();
}

/// A law: each `settle` and each `plan` of a script's run prints the report of a world that comes of
/// power-on. In it every component of the cables, as they then stand, is exactly one of three: a loop
/// whose core is in configuration timeout, or one cable whose ends drew thirty-two equal coins, or one
/// list at every node, the child-first walk from its one root.
pub fn reports_are_settled()
    ensures { ReportsAreSettled }
{
    one_tree();
    acts_keep();
    reports_are_read_back();
    reports_are_outcomes();
    outcomes_are_one();
}

/// A law: each tree of a report is a bus tree's, which elects an isochronous resource manager, or
/// none.
pub fn reported_trees_are_managed()
    ensures { ReportedTreesAreManaged }
{
    reports_are_read_back();
}

/// A law: on a bus whose world is reached each command but a plan has an answer, and so has what the
/// bus settles to.
pub fn commands_have_answers()
    ensures commands { CommandsHaveAnswers }
    ensures settling { BusesSettle }
{
    components_exist();
    settled_worlds_have_texts();
    maps_have_texts();
    reported_trees_are_managed();
}

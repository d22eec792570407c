//! Laws of plans, and of scripts.
ghost use Rattle.script_told.specs.SomeAnswer.{PlansHaveAnswers};
ghost use Rattle.script_told.specs.EachPlan.{EachPlanComesOut};
ghost use Rattle.script_bus.specs.EachConfig.{EachConfigComesOut, EntriesFollowOn};
ghost use Rattle.script_bus.specs.EachMaps.{MapsShowOneTree};
ghost use Rattle.script_bus.specs.EachWaiting.{EachWaitingNodeBecomesRoot};
ghost use Rattle.script_bus.specs.SomeRun.{EachScriptHasARun};
ghost use Rattle.script_bus.specs.SomeAdvice.{EachScriptHasAnAdvice};

use cable_world::acts_keep;
use cabling::components_exist;
use loop_advice::advices_exist;
use outcomes::{forced_roots_settle, trees_stay};
use script_lines::commands_are_in_range;
use script_text::{plans_exist, settled_worlds_have_texts};
use script_told::{commands_have_answers, reported_trees_are_managed};
use settle::walks_exist;
use topology_stack::one_tree;
use world_laws::{acts_make_fresh, waiting_roots_settle};

/// A law: on a bus whose world is reached a plan has an answer, so it can be carried out where it isn't
/// refused.
pub fn plans_have_answers()
    ensures { PlansHaveAnswers }
{
    one_tree();
    trees_stay();
    components_exist();
    walks_exist();
    plans_exist();
    settled_worlds_have_texts();
    reported_trees_are_managed();
    forced_roots_settle();
}

/// A law: each `plan` of a script comes out. The node with the planned ID is the root of the tree that
/// is reported, and every node of that has the planned gap count.
pub fn each_plan_comes_out()
    ensures { EachPlanComesOut }
{
    one_tree();
    acts_keep();
    trees_stay();
    components_exist();
    reported_trees_are_managed();
    forced_roots_settle();
}

/// A law: each command of a script's run is done where the one before it led.
pub fn entries_follow_on()
    ensures { EntriesFollowOn }
{}

/// A law: each `config` of a script that names an ID, and that a `settle` follows, comes out. The node
/// that had the ID is the root of the tree that is reported, and every node of that has the gap count
/// that was given.
pub fn each_config_comes_out()
    ensures { EachConfigComesOut }
{
    one_tree();
    acts_keep();
    trees_stay();
    components_exist();
    forced_roots_settle();
}

/// A law: where a `settle` follows acts alone since power-on or since the last report, each node that
/// then waits alone to become root, in a component without loop that these acts reset, is the root of
/// the tree that is reported.
pub fn each_waiting_node_becomes_root()
    ensures { EachWaitingNodeBecomesRoot }
{
    one_tree();
    acts_keep();
    components_exist();
    acts_make_fresh();
    waiting_roots_settle();
}

/// A law: two `maps` of nodes of one tree print the same where no act, no `plan` and no `settle` comes
/// between them, whatever turns and holds do: the tree stands, and its root counts no reset.
pub fn maps_show_one_tree()
    ensures { MapsShowOneTree }
{
    one_tree();
    acts_keep();
    trees_stay();
    components_exist();
    forced_roots_settle();
}

/// A law: each script has a run, whatever its bytes are and whatever memory there is to run it. So it
/// tells a text or a fault.
pub fn each_script_has_a_run()
    ensures { EachScriptHasARun }
{
    acts_keep();
    commands_have_answers();
    plans_have_answers();
    commands_are_in_range();
}

/// A law: each script has an advice, the text of it or a fault, whatever memory there is to make it.
pub fn each_script_has_an_advice()
    ensures { EachScriptHasAnAdvice }
{
    one_tree();
    acts_keep();
    components_exist();
    advices_exist();
    commands_have_answers();
    each_script_has_a_run();
}

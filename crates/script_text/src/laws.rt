//! Laws of reports.
ghost use Rattle.std.specs.Prelude.{IsFalse};
ghost use Rattle.script_text.specs.CanBeShown.{CanBeShown};
ghost use Rattle.script_text.specs.OneText.{ReportsHaveOneText};
ghost use Rattle.script_text.specs.SomeText.{NamedReportsHaveTexts, SettledWorldsHaveTexts};
ghost use Rattle.script_text.specs.SomeText.{QuietWorldsHaveTexts};
ghost use Rattle.script_text.specs.SomeMaps.{MapsHaveTexts};
ghost use Rattle.script_text.specs.SomePlan.{PlansExist};

use cable_world::WorldRun;
use root_plan::best_roots_exist;
use settle::{quiet_turns_settle, reports_are_read_back, reports_exist};
use speed_map::rows_exist;
use topology_map::images_exist;
use topology_stack::one_tree;

/// A law: a report of a world that isn't spent, as `settle` gives it, can be shown by `report_text`
/// where there are as many names as the world has nodes.
pub fn reports_can_be_shown<W: WorldRun>(world: &W)
    requires { IsFalse (W.is_spent world.now) }
    ensures { CanBeShown (W.world world.now) }
{
    reports_are_read_back();
}

/// A law: a report has one text at most.
pub fn reports_have_one_text()
    ensures { ReportsHaveOneText }
{
    one_tree();
}

/// A law: a report that can be shown has a text, whatever memory there is to make it.
pub fn reports_have_texts()
    ensures { NamedReportsHaveTexts }
{}

/// A law: each world that has settled has a report and a text of it, where there are as many names as
/// nodes. So has each to which as many turns lead as a reached world is given.
pub fn settled_worlds_have_texts()
    ensures settled { SettledWorldsHaveTexts }
    ensures quiet { QuietWorldsHaveTexts }
{
    reports_are_read_back();
    reports_exist();
    quiet_turns_settle();
}

/// A law: the maps of each bus tree have a text, in each generation.
pub fn maps_have_texts()
    ensures { MapsHaveTexts }
{
    images_exist();
    rows_exist();
}

/// A law: each bus tree with a candidate has a plan.
pub fn plans_exist()
    ensures { PlansExist }
{
    best_roots_exist();
}
